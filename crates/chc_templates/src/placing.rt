// Numbers by their distance from 0, the first sixteen of them.

ghost use Rattle.std.specs.Prelude.{◌≡◌, [], ◌∷◌, ◌++◌, take, IfOk};
ghost use Rattle.std.specs.Option.{option_to_list};
ghost use Rattle.chc_templates.specs.Constants.{is_before, placed};
ghost use Rattle.chc_templates.specs.Firsts.{is_small, firsts};

use chc_nums::{List, NoMemory};
use std::alloc::Global;

fn is_before(x: i128, y: i128) -> bool
    ensures { result ≡ is_before x y }
{
    let (near, far) = (x.unsigned_abs(), y.unsigned_abs());
    near < far || (near == far && x >= 0 && y < 0)
}

// Whether a number has at most 96 bits beside its sign, as all numbers of types have.
#[tactic(auto, unfolding(crate::specs::Firsts::is_small))]
fn is_small(x: i128) -> bool
    ensures { result ≡ is_small x }
{
    x.unsigned_abs() < 0x1_0000_0000_0000_0000_0000_0000
}

/// The first sixteen of some numbers.
pub fn cut(numbers: List<i128>) -> List<i128>
    ensures { result ≡ take 16 numbers }
{
    let mut items = numbers.into_vec();
    items.truncate(16);
    List::from_vec(items)
}

fn with_rest(front: List<i128>, rest: &[i128]) -> Result<List<i128>, NoMemory>
    ensures { IfOk result (λ list. list ≡ front ++ rest.now) }
{
    let mut items = front.into_vec();
    items.extend_from_slice(rest)?;
    Ok(List::from_vec(items))
}

// Numbers in order with one more where it belongs, unless it is there.
fn placed(alloc: Global, x: i128, numbers: &[i128]) -> Result<List<i128>, NoMemory>
    ensures { IfOk result (λ list. list ≡ placed x numbers.now) }
{
    let mut made = List::new(alloc);
    let mut rest = numbers;
    while let [y, more @ ..] = rest {
        if is_before(x, *y) {
            made.push(x)?;
            return with_rest(made, rest);
        }
        if x == *y {
            return with_rest(made, rest);
        }
        made.push(*y)?;
        rest = more;
    }
    made.push(x)?;
    Ok(made)
}

/// The first numbers with one more, unless it is too large to be of a type.
#[tactic(auto, using(crate::proofs::Orders::firsts_of))]
pub fn with_number(alloc: Global, made: List<i128>, x: i128) -> Result<List<i128>, NoMemory>
    ensures { IfOk result (λ list. list ≡ firsts made (x ∷ [])) }
{
    if !is_small(x) {
        return Ok(cut(made));
    }
    let more = placed(alloc, x, made.as_slice())?;
    Ok(cut(more))
}

/// The first numbers with one that may have left 128 bits.
#[tactic(auto, using(crate::proofs::Orders::firsts_of))]
pub fn with_some(alloc: Global, made: List<i128>, x: Option<i128>) -> Result<List<i128>, NoMemory>
    ensures { IfOk result (λ list. list ≡ firsts made (option_to_list x)) }
{
    match x {
        None => Ok(cut(made)),
        Some(x) => with_number(alloc, made, x),
    }
}
