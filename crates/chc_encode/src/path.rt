// The path through the statements of a function, statement by statement.

ghost use Rattle.std.specs.Prelude.{◌≡◌, ◌+◌, ◌-◌, ◌*◌, ◌++◌, ◌∷◌, [], ◌^◌, length, map, IfOk, OnOk, pos, ◌+ℤ◌, ◌-ℤ◌, neg_ℤ};
ghost use Rattle.std.specs.List.{All, range_with_len};
ghost use Rattle.chc_nums.specs.Types.{IsSize};
ghost use Rattle.sol_first.specs.Typed.{size_at, StepTyped};
ghost use Rattle.chc_encode.specs.PathRows.{most, now_at, next_at, minus, plus, plus_minus, minus_plus, within, holds, opposite, entry, sorts_of, assigned, after, target};
ghost use Rattle.chc_encode.specs.Sizes.{IsSmall};

use crate::rows::{
    add_difference, add_number, add_shift, difference, holds, minus, opposite, opposite_number,
    plus,
};
use chc_form::{Row, Sort};
use chc_nums::{List, NoMemory, Ty, range};
use sol_first::{Step, Variable};
use std::alloc::Global;

/// A path so far: its rows, the sorts of its row variables, and the row variable that holds each state variable now.
/// Row variables are numbered from 0: first the state variables at entry, and then one for each assignment.
#[derive(Drop)]
pub struct Path {
    pub rows: List<Row>,
    pub sorts: List<Sort>,
    pub current: List<u32>,
}

// A variable's size in bytes, or 0 where there is no such variable.
fn size_at(variables: &[Variable], i: u32) -> u8
    ensures { result ≡ size_at variables.now i }
{
    match variables.get(i as usize) {
        Some(variable) => variable.size,
        None => 0,
    }
}

// The greatest value of a type of so many bytes.
fn greatest_of(size: u8) -> i128
    requires { IsSize size }
    ensures value { result ≡ pos (2 ^ (8 * size) - 1) }
    ensures small { IsSmall result }
{
    range(Ty::Uint(size)).1
}

// The greatest value of a state variable.
fn most(variables: &[Variable], i: u32) -> i128
    requires { IsSize (size_at variables.now i) }
    ensures value { result ≡ most variables.now i }
    ensures small { IsSmall result }
{
    greatest_of(size_at(variables, i))
}

// The row variable that holds a state variable now.
fn now_at(path: &Path, i: u32) -> u32
    ensures { result ≡ now_at path.now i }
{
    match path.current.get(i as usize) {
        Some(at) => *at,
        None => 0,
    }
}

// The number of the next row variable.
fn next_at(path: &Path) -> Result<u32, NoMemory>
    ensures { IfOk result (λ n. n ≡ next_at path.now) }
{
    match u32::try_from(path.sorts.len()) {
        Ok(n) => Ok(n),
        Err(_) => Err(NoMemory),
    }
}

// The path at the entry of a function.
pub fn entry(alloc: Global, variables: &[Variable]) -> Result<Path, NoMemory>
    ensures { IfOk result (λ p. p ≡ entry variables.now) }
{
    let sorts = entry_sorts(alloc, variables)?;
    let current = entry_current(alloc, variables)?;
    Ok(Path {
        rows: List::new(alloc),
        sorts,
        current,
    })
}

// The sorts of the state variables.
pub fn entry_sorts(alloc: Global, variables: &[Variable]) -> Result<List<Sort>, NoMemory>
    ensures { IfOk result (λ sorts. sorts ≡ sorts_of variables.now) }
{
    let mut sorts = List::new(alloc);
    for variable in variables {
        sorts.push(Sort::Whole(Ty::Uint(variable.size)))?;
    }
    Ok(sorts)
}

// The number of variables, of which there are fewer than 2^32.
fn count(variables: &[Variable]) -> Result<u32, NoMemory>
    ensures { IfOk result (λ n. n ≡ length variables.now) }
{
    match u32::try_from(variables.len()) {
        Ok(n) => Ok(n),
        Err(_) => Err(NoMemory),
    }
}

// Each variable is held by the row variable of its own number.
pub fn entry_current(alloc: Global, variables: &[Variable]) -> Result<List<u32>, NoMemory>
    ensures { IfOk result (λ list. list ≡ range_with_len 0 (length variables.now)) }
{
    up_to(alloc, count(variables)?)
}

// The numbers below this one.
#[tactic(auto, using(sol_first::proofs::Places::ranges))]
fn up_to(alloc: Global, count: u32) -> Result<List<u32>, NoMemory>
    ensures { IfOk result (λ list. list ≡ range_with_len 0 count) }
{
    let mut list = List::new(alloc);
    for i in 0..count {
        list.push(i)?;
    }
    Ok(list)
}

// The row of a statement's own target, where it has one: what the target's violation says. With it the path's rows are
// those of the path to the target.
#[tactic(auto, using(crate::proofs::Forms::typed))]
pub fn target(
    alloc: Global,
    variables: &[Variable],
    step: &Step,
    path: &Path,
) -> Result<Option<Row>, NoMemory>
    requires sizes { All (λ v. IsSize v.size) variables.now }
    requires typed { StepTyped variables.now step.now }
    ensures { IfOk result (λ t. t ≡ target variables.now step.now path.now) }
{
    match step {
        Step::Require { .. } | Step::Put { .. } | Step::Move { .. } => Ok(None),
        Step::Assert {
            variable,
            order,
            number,
            ..
        } => Ok(Some(holds(alloc, opposite(*order), now_at(path, *variable), *number)?)),
        Step::Add { from, number, .. } => Ok(Some(over(
            alloc,
            now_at(path, *from),
            most(variables, *from),
            *number,
        )?)),
        Step::Subtract { from, number, .. } => {
            Ok(Some(under(alloc, now_at(path, *from), *number)?))
        }
    }
}

// A sum of a variable and a number is above a greatest value.
fn over(alloc: Global, x: u32, greatest: i128, n: i128) -> Result<Row, NoMemory>
    requires greatest { IsSmall greatest }
    requires number { IsSmall n }
    ensures { IfOk result (λ r. r ≡ minus x ((greatest +ℤ pos 1) -ℤ n)) }
{
    minus(alloc, x, greatest + 1 - n)
}

// A difference of a variable and a number is below 0.
fn under(alloc: Global, x: u32, n: i128) -> Result<Row, NoMemory>
    requires { IsSmall n }
    ensures { IfOk result (λ r. r ≡ plus x (pos 1 -ℤ n)) }
{
    plus(alloc, x, difference(1, n))
}

// The path after a statement. Without memory the path may have some of the statement's rows already, and is of no use.
#[tactic(auto, using(crate::proofs::Forms::typed))]
pub fn advance(
    alloc: Global,
    variables: &[Variable],
    step: &Step,
    path: &mut Path,
) -> Result<(), NoMemory>
    requires sizes { All (λ v. IsSize v.size) variables.now }
    requires typed { StepTyped variables.now step.now }
    ensures { OnOk result (path.new ≡ after variables.now step.now path.old) }
{
    match step {
        Step::Require {
            variable,
            order,
            number,
        }
        | Step::Assert {
            variable,
            order,
            number,
            ..
        } => {
            let row = holds(alloc, *order, now_at(path, *variable), *number)?;
            path.rows.push(row)
        }
        Step::Put { to, number } => put(alloc, variables, path, *to, *number),
        Step::Move { to, from } => {
            let read = now_at(path, *from);
            replace(alloc, variables, path, *to, read)
        }
        Step::Add {
            to,
            from,
            number,
            ..
        } => {
            let less = opposite_number(*number);
            shift(alloc, variables, path, *to, *from, *number, less)
        }
        Step::Subtract {
            to,
            from,
            number,
            ..
        } => {
            let less = opposite_number(*number);
            shift(alloc, variables, path, *to, *from, less, *number)
        }
    }
}

// A state variable is held by a new row variable of its type.
fn assign(variables: &[Variable], path: &mut Path, to: u32) -> Result<(), NoMemory>
    ensures { OnOk result (path.new ≡ assigned variables.now path.old to []) }
{
    let held = next_at(path)?;
    path.sorts
        .push(Sort::Whole(Ty::Uint(size_at(variables, to))))?;
    if (to as usize) < path.current.len() {
        path.current.set(to as usize, held);
    }
    Ok(())
}

// A state variable becomes a number.
fn put(
    alloc: Global,
    variables: &[Variable],
    path: &mut Path,
    to: u32,
    n: i128,
) -> Result<(), NoMemory>
    requires { IsSmall n }
    ensures { OnOk result (path.new ≡ assigned variables.now path.old to (minus (next_at path.old) n ∷ plus (next_at path.old) (neg_ℤ n) ∷ [])) }
{
    let next = next_at(path)?;
    add_number(alloc, &mut path.rows, next, n)?;
    assign(variables, path, to)
}

// A state variable becomes what a row variable is.
fn replace(
    alloc: Global,
    variables: &[Variable],
    path: &mut Path,
    to: u32,
    read: u32,
) -> Result<(), NoMemory>
    ensures { OnOk result (path.new ≡ assigned variables.now path.old to (plus_minus read (next_at path.old) (pos 0) ∷ minus_plus read (next_at path.old) (pos 0) ∷ [])) }
{
    let next = next_at(path)?;
    add_difference(alloc, &mut path.rows, read, next, 0, 0)?;
    assign(variables, path, to)
}

// A state variable becomes what another one is now, with a number more, which lies in the type of the one read; the
// number is given twice, with both signs.
fn shift(
    alloc: Global,
    variables: &[Variable],
    path: &mut Path,
    to: u32,
    from: u32,
    low: i128,
    high: i128,
) -> Result<(), NoMemory>
    requires { IsSize (size_at variables.now from) }
    ensures { OnOk result (path.new ≡ assigned variables.now path.old to (plus_minus (now_at path.old from) (next_at path.old) low ∷ minus_plus (now_at path.old from) (next_at path.old) high ∷ within (next_at path.old) (most variables.now from))) }
{
    let read = now_at(path, from);
    let greatest = most(variables, from);
    let next = next_at(path)?;
    add_shift(alloc, &mut path.rows, read, next, low, high, greatest)?;
    assign(variables, path, to)
}
