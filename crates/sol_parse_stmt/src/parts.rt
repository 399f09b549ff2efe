// Parts of statements. What is read comes with its levels and the tokens after it. `inner` is how many levels the types
// and expressions inside it may have.

ghost use Rattle.std.specs.Prelude.{◌≡◌, ◌≤◌};
ghost use Rattle.sol_parse_expr.specs.Reading.{Gives, GivesOne, Within, WithinOne};
ghost use Rattle.sol_parse_stmt.specs.Reading.{arguments_at, condition_at, head_at, head_condition_at, head_step_at, may_expr_at, sent_at};

use crate::simple::may_simple_at;
use chc_nums::NoMemory;
use sol_parse_expr::{Furthest, all_at, expr_at, mark_at, name_at};
use sol_tree::{Arguments, ExprTree, Identifier, Simple, Token};
use sqlite_items::Boxed;

// `( [simple] ; [expr] ; [simple] )`
#[derive(Drop)]
pub struct Head {
    pub start: Boxed<Option<Simple>>,
    pub condition: Boxed<Option<ExprTree>>,
    pub step: Boxed<Option<Simple>>,
}

// An event or an error with what it is given, `ID ( [args] ) ;`.
#[derive(Drop)]
pub struct Sent {
    pub name: Identifier,
    pub arguments: Arguments,
}

/// `[expr]`
#[tactic(auto, unfolding(crate::specs::Reading::may_expr_at))]
pub fn may_expr_at<'a>(
    furthest: &mut Furthest,
    inner: u8,
    tokens: &'a [Token],
) -> Result<(Option<ExprTree>, u32, &'a [Token]), NoMemory>
    ensures read { GivesOne result (may_expr_at inner tokens.now) }
    ensures within { WithinOne inner result }
{
    match expr_at(furthest, inner, 10, tokens)? {
        None => Ok((None, 0, tokens)),
        Some((expr, height, rest)) => Ok((Some(expr), height, rest)),
    }
}

/// `( expr )`
#[tactic(auto, unfolding(crate::specs::Reading::condition_at))]
pub fn condition_at<'a>(
    furthest: &mut Furthest,
    inner: u8,
    tokens: &'a [Token],
) -> Result<Option<(Boxed<ExprTree>, u32, &'a [Token])>, NoMemory>
    ensures read { Gives result (condition_at inner tokens.now) }
    ensures within { Within inner result }
{
    let Some((_, rest)) = mark_at(furthest, b"(", tokens) else {
        return Ok(None);
    };
    let Some((expr, height, rest)) = expr_at(furthest, inner, 10, rest)? else {
        return Ok(None);
    };
    let expr = Boxed::new(furthest.alloc, expr)?;
    let Some((_, rest)) = mark_at(furthest, b")", rest) else {
        return Ok(None);
    };
    Ok(Some((expr, height, rest)))
}

/// `( [args] )`, each of at most so many levels.
#[tactic(auto, unfolding(crate::specs::Reading::arguments_at))]
pub fn arguments_at<'a>(
    furthest: &mut Furthest,
    inner: u8,
    tokens: &'a [Token],
) -> Result<Option<(Arguments, u32, &'a [Token])>, NoMemory>
    ensures read { Gives result (arguments_at inner tokens.now) }
    ensures within { Within inner result }
{
    let Some((at, rest)) = mark_at(furthest, b"(", tokens) else {
        return Ok(None);
    };
    let (values, height, rest) = all_at(furthest, inner, rest)?;
    let Some((_, rest)) = mark_at(furthest, b")", rest) else {
        return Ok(None);
    };
    Ok(Some((Arguments { at, values }, height, rest)))
}

/// `ID ( [args] ) ;`
#[tactic(auto, unfolding(crate::specs::Reading::sent_at))]
pub fn sent_at<'a>(
    furthest: &mut Furthest,
    inner: u8,
    tokens: &'a [Token],
) -> Result<Option<(Sent, u32, &'a [Token])>, NoMemory>
    ensures read { Gives result (sent_at inner tokens.now) }
    ensures within { Within inner result }
{
    let Some((name, rest)) = name_at(furthest, tokens)? else {
        return Ok(None);
    };
    let Some((arguments, height, rest)) = arguments_at(furthest, inner, rest)? else {
        return Ok(None);
    };
    let Some((_, rest)) = mark_at(furthest, b";", rest) else {
        return Ok(None);
    };
    Ok(Some((Sent { name, arguments }, height, rest)))
}

// `[simple] )`, the last part of the head of a `for`.
#[tactic(auto, unfolding(crate::specs::Reading::head_step_at))]
fn head_step_at<'a>(
    furthest: &mut Furthest,
    inner: u8,
    start: Boxed<Option<Simple>>,
    condition: Boxed<Option<ExprTree>>,
    start_height: u32,
    condition_height: u32,
    tokens: &'a [Token],
) -> Result<Option<(Head, u32, &'a [Token])>, NoMemory>
    requires start_low { start_height ≤ inner }
    requires condition_low { condition_height ≤ inner }
    ensures read { Gives result (head_step_at inner start condition start_height condition_height tokens.now) }
    ensures within { Within inner result }
{
    let (step, height, rest) = may_simple_at(furthest, inner, tokens)?;
    let step = Boxed::new(furthest.alloc, step)?;
    let Some((_, rest)) = mark_at(furthest, b")", rest) else {
        return Ok(None);
    };
    let head = Head {
        start,
        condition,
        step,
    };
    Ok(Some((head, start_height.max(condition_height.max(height)), rest)))
}

// `[expr] ; [simple] )`
#[tactic(auto, unfolding(crate::specs::Reading::head_condition_at))]
fn head_condition_at<'a>(
    furthest: &mut Furthest,
    inner: u8,
    start: Boxed<Option<Simple>>,
    start_height: u32,
    tokens: &'a [Token],
) -> Result<Option<(Head, u32, &'a [Token])>, NoMemory>
    requires low { start_height ≤ inner }
    ensures read { Gives result (head_condition_at inner start start_height tokens.now) }
    ensures within { Within inner result }
{
    let (condition, height, rest) = may_expr_at(furthest, inner, tokens)?;
    let condition = Boxed::new(furthest.alloc, condition)?;
    let Some((_, rest)) = mark_at(furthest, b";", rest) else {
        return Ok(None);
    };
    head_step_at(
        furthest,
        inner,
        start,
        condition,
        start_height,
        height,
        rest,
    )
}

/// `( [simple] ; [expr] ; [simple] )`
#[tactic(auto, unfolding(crate::specs::Reading::head_at))]
pub fn head_at<'a>(
    furthest: &mut Furthest,
    inner: u8,
    tokens: &'a [Token],
) -> Result<Option<(Head, u32, &'a [Token])>, NoMemory>
    ensures read { Gives result (head_at inner tokens.now) }
    ensures within { Within inner result }
{
    let Some((_, rest)) = mark_at(furthest, b"(", tokens) else {
        return Ok(None);
    };
    let (start, height, rest) = may_simple_at(furthest, inner, rest)?;
    let start = Boxed::new(furthest.alloc, start)?;
    let Some((_, rest)) = mark_at(furthest, b";", rest) else {
        return Ok(None);
    };
    head_condition_at(furthest, inner, start, height, rest)
}
