// Lists of what is read one by one.

ghost use Rattle.std.specs.Prelude.{◌≡◌, ◌≤◌, ℕ, length};
ghost use Rattle.sol_parse_expr.specs.Reading.{Gives, GivesOne, Measured, Within, WithinOne};
ghost use Rattle.sol_parser.specs.Reading.{enclosed_at, many_at, may_separated_at, next_at, repeated_at, separated_at};

use chc_nums::{List, NoMemory};
use sol_parse_expr::{Furthest, mark_at};
use sol_tree::Token;

/// What stands in a list.
pub trait Element: Drop {
    /// How many levels it may have.
    ghost most: { ℕ };

    /// How it is read.
    ghost reader: { Measured Self };

    fn read<'a>(
        furthest: &mut Furthest,
        tokens: &'a [Token],
    ) -> Result<Option<(Self, u32, &'a [Token])>, NoMemory>
        ensures read { Gives result (reader tokens.now) }
        ensures within { Within most result };
}

/// `{x}`
#[tactic(auto, using(crate::proofs::Turns::turns), unfolding(crate::specs::Reading::many_at))]
pub fn many_at<'a, T: Element>(
    furthest: &mut Furthest,
    tokens: &'a [Token],
) -> Result<(List<T>, u32, &'a [Token]), NoMemory>
    ensures read { GivesOne result (many_at T.reader tokens.now) }
    ensures within { WithinOne T.most result }
{
    let mut so_far = List::new(furthest.alloc);
    let mut height = 0;
    let mut rest = tokens;
    for _turn in 0..tokens.len() {
        let Some((element, element_height, after)) = T::read(furthest, rest)? else {
            return Ok((so_far, height, rest));
        };
        so_far.push(element)?;
        height = height.max(element_height);
        rest = after;
    }
    Ok((so_far, height, rest))
}

// `, x`
#[tactic(auto, unfolding(crate::specs::Reading::next_at))]
fn next_at<'a, T: Element>(
    furthest: &mut Furthest,
    tokens: &'a [Token],
) -> Result<Option<(T, u32, &'a [Token])>, NoMemory>
    ensures read { Gives result (next_at T.reader tokens.now) }
    ensures within { Within T.most result }
{
    let Some((_, rest)) = mark_at(furthest, b",", tokens) else {
        return Ok(None);
    };
    T::read(furthest, rest)
}

// What follows the first of a list with commas.
#[tactic(auto, using(crate::proofs::Turns::turns))]
fn more_at<'a, T: Element>(
    furthest: &mut Furthest,
    first: List<T>,
    first_height: u32,
    tokens: &'a [Token],
) -> Result<(List<T>, u32, &'a [Token]), NoMemory>
    requires low { first_height ≤ T.most }
    ensures read { GivesOne result (repeated_at (next_at T.reader) (length tokens.now) first first_height tokens.now) }
    ensures within { WithinOne T.most result }
{
    let mut so_far = first;
    let mut height = first_height;
    let mut rest = tokens;
    for _turn in 0..tokens.len() {
        let Some((element, element_height, after)) = next_at::<T>(furthest, rest)? else {
            return Ok((so_far, height, rest));
        };
        so_far.push(element)?;
        height = height.max(element_height);
        rest = after;
    }
    Ok((so_far, height, rest))
}

/// `x {, x}`
#[tactic(auto, unfolding(crate::specs::Reading::separated_at))]
pub fn separated_at<'a, T: Element>(
    furthest: &mut Furthest,
    tokens: &'a [Token],
) -> Result<Option<(List<T>, u32, &'a [Token])>, NoMemory>
    ensures read { Gives result (separated_at T.reader tokens.now) }
    ensures within { Within T.most result }
{
    let Some((first, height, rest)) = T::read(furthest, tokens)? else {
        return Ok(None);
    };
    let mut elements = List::new(furthest.alloc);
    elements.push(first)?;
    Ok(Some(more_at(furthest, elements, height, rest)?))
}

/// `[x {, x}]`
#[tactic(auto, unfolding(crate::specs::Reading::may_separated_at))]
pub fn may_separated_at<'a, T: Element>(
    furthest: &mut Furthest,
    tokens: &'a [Token],
) -> Result<(List<T>, u32, &'a [Token]), NoMemory>
    ensures read { GivesOne result (may_separated_at T.reader tokens.now) }
    ensures within { WithinOne T.most result }
{
    match separated_at(furthest, tokens)? {
        Some(found) => Ok(found),
        None => Ok((List::new(furthest.alloc), 0, tokens)),
    }
}

/// `( [x {, x}] )`
#[tactic(auto, unfolding(crate::specs::Reading::enclosed_at))]
pub fn enclosed_at<'a, T: Element>(
    furthest: &mut Furthest,
    tokens: &'a [Token],
) -> Result<Option<(List<T>, u32, &'a [Token])>, NoMemory>
    ensures read { Gives result (enclosed_at T.reader tokens.now) }
    ensures within { Within T.most result }
{
    let Some((_, rest)) = mark_at(furthest, b"(", tokens) else {
        return Ok(None);
    };
    let (elements, height, rest) = may_separated_at(furthest, rest)?;
    let Some((_, rest)) = mark_at(furthest, b")", rest) else {
        return Ok(None);
    };
    Ok(Some((elements, height, rest)))
}
