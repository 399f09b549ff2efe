// The rows of paths, one by one.

ghost use Rattle.std.specs.Prelude.{◌≡◌, ◌++◌, ◌∷◌, [], IfOk, OnOk, pos, ◌+ℤ◌, ◌-ℤ◌, neg_ℤ};
ghost use Rattle.chc_encode.specs.PathRows.{plus, minus, plus_minus, minus_plus, within, holds, opposite};
ghost use Rattle.chc_encode.specs.Sizes.{IsSmall};

use chc_form::{Lin, Row};
use chc_nums::{List, NoMemory};
use sol_first::Order;
use std::alloc::Global;

// x + k <= 0
pub fn plus(alloc: Global, x: u32, k: i128) -> Result<Row, NoMemory>
    ensures { IfOk result (λ r. r ≡ plus x k) }
{
    let mut terms = List::new(alloc);
    terms.push((x, 1))?;
    Ok(Row {
        lin: Lin { terms, konst: k },
    })
}

// k - x <= 0
pub fn minus(alloc: Global, x: u32, k: i128) -> Result<Row, NoMemory>
    ensures { IfOk result (λ r. r ≡ minus x k) }
{
    let mut terms = List::new(alloc);
    terms.push((x, -1))?;
    Ok(Row {
        lin: Lin { terms, konst: k },
    })
}

// x - y + k <= 0
fn plus_minus(alloc: Global, x: u32, y: u32, k: i128) -> Result<Row, NoMemory>
    ensures { IfOk result (λ r. r ≡ plus_minus x y k) }
{
    let mut terms = List::new(alloc);
    terms.push((x, 1))?;
    terms.push((y, -1))?;
    Ok(Row {
        lin: Lin { terms, konst: k },
    })
}

// y - x + k <= 0
fn minus_plus(alloc: Global, x: u32, y: u32, k: i128) -> Result<Row, NoMemory>
    ensures { IfOk result (λ r. r ≡ minus_plus x y k) }
{
    let mut terms = List::new(alloc);
    terms.push((x, -1))?;
    terms.push((y, 1))?;
    Ok(Row {
        lin: Lin { terms, konst: k },
    })
}

pub fn difference(a: i128, b: i128) -> i128
    requires a { IsSmall a }
    requires b { IsSmall b }
    ensures { result ≡ a -ℤ b }
{
    a - b
}

pub fn opposite_number(a: i128) -> i128
    requires { IsSmall a }
    ensures { result ≡ neg_ℤ a }
{
    -a
}

pub fn next_number(a: i128) -> i128
    requires { IsSmall a }
    ensures { result ≡ a +ℤ pos 1 }
{
    a + 1
}

pub fn opposite(order: Order) -> Order
    ensures { result ≡ opposite order }
{
    match order {
        Order::Less => Order::GreaterEqual,
        Order::LessEqual => Order::Greater,
        Order::Greater => Order::LessEqual,
        Order::GreaterEqual => Order::Less,
    }
}

// A variable that is less than a number, and so on.
pub fn holds(alloc: Global, order: Order, x: u32, n: i128) -> Result<Row, NoMemory>
    requires { IsSmall n }
    ensures { IfOk result (λ r. r ≡ holds order x n) }
{
    match order {
        Order::Less => plus(alloc, x, difference(1, n)),
        Order::LessEqual => plus(alloc, x, opposite_number(n)),
        Order::Greater => minus(alloc, x, next_number(n)),
        Order::GreaterEqual => minus(alloc, x, n),
    }
}

// A variable is at least 0, and at most a greatest value.
pub fn add_bounds(
    alloc: Global,
    rows: &mut List<Row>,
    x: u32,
    greatest: i128,
) -> Result<(), NoMemory>
    requires { IsSmall greatest }
    ensures { OnOk result (rows.new ≡ rows.old ++ within x greatest) }
{
    rows.push(minus(alloc, x, 0)?)?;
    rows.push(plus(alloc, x, opposite_number(greatest))?)
}

// A variable that is a number.
pub fn add_number(alloc: Global, rows: &mut List<Row>, x: u32, n: i128) -> Result<(), NoMemory>
    requires { IsSmall n }
    ensures { OnOk result (rows.new ≡ rows.old ++ minus x n ∷ plus x (neg_ℤ n) ∷ []) }
{
    rows.push(minus(alloc, x, n)?)?;
    rows.push(plus(alloc, x, opposite_number(n))?)
}

// A later variable between an earlier one and a number, from below and from above.
pub fn add_difference(
    alloc: Global,
    rows: &mut List<Row>,
    x: u32,
    y: u32,
    low: i128,
    high: i128,
) -> Result<(), NoMemory>
    ensures { OnOk result (rows.new ≡ rows.old ++ plus_minus x y low ∷ minus_plus x y high ∷ []) }
{
    rows.push(plus_minus(alloc, x, y, low)?)?;
    rows.push(minus_plus(alloc, x, y, high)?)
}

// The same of a later variable that lies in a type.
pub fn add_shift(
    alloc: Global,
    rows: &mut List<Row>,
    x: u32,
    y: u32,
    low: i128,
    high: i128,
    greatest: i128,
) -> Result<(), NoMemory>
    requires { IsSmall greatest }
    ensures { OnOk result (rows.new ≡ rows.old ++ plus_minus x y low ∷ minus_plus x y high ∷ within y greatest) }
{
    add_difference(alloc, rows, x, y, low, high)?;
    add_bounds(alloc, rows, y, greatest)
}
