// What may stand before a `;` and in the head of a `for`. What is read comes with its levels and the tokens after it.
// `inner` is how many levels the types and expressions inside it may have.

ghost use Rattle.std.specs.Prelude.{◌≡◌, ◌≤◌};
ghost use Rattle.sol_parse_expr.specs.Reading.{Gives, GivesOne, Within, WithinOne};
ghost use Rattle.sol_parse_stmt.specs.Reading.{after_at, assigned_at, declaration_at, declared_at, delete_at, initial_at, initialised_at, led_at, may_initial_at, may_simple_at, simple_at, step_before_at};

use crate::steps::{assign_at, step_at};
use chc_nums::NoMemory;
use sol_parse_expr::{Furthest, expr_at, mark_at, name_at, type_at, word_at};
use sol_tree::{AssignOp, ExprTree, Identifier, Initial, Simple, Token, Type};
use sqlite_items::Boxed;

// `= expr`
#[tactic(auto, unfolding(crate::specs::Reading::initial_at))]
fn initial_at<'a>(
    furthest: &mut Furthest,
    inner: u8,
    tokens: &'a [Token],
) -> Result<Option<(Initial, u32, &'a [Token])>, NoMemory>
    ensures read { Gives result (initial_at inner tokens.now) }
    ensures within { Within inner result }
{
    let Some((at, rest)) = mark_at(furthest, b"=", tokens) else {
        return Ok(None);
    };
    let Some((value, height, rest)) = expr_at(furthest, inner, 10, rest)? else {
        return Ok(None);
    };
    Ok(Some((Initial { at, value }, height, rest)))
}

/// `= expr`, where it stands; the expression has at most so many levels.
#[tactic(auto, unfolding(crate::specs::Reading::may_initial_at))]
pub fn may_initial_at<'a>(
    furthest: &mut Furthest,
    inner: u8,
    tokens: &'a [Token],
) -> Result<(Option<Initial>, u32, &'a [Token]), NoMemory>
    ensures read { GivesOne result (may_initial_at inner tokens.now) }
    ensures within { WithinOne inner result }
{
    match initial_at(furthest, inner, tokens)? {
        None => Ok((None, 0, tokens)),
        Some((initial, height, rest)) => Ok((Some(initial), height, rest)),
    }
}

// `[= expr]` after a type and a name.
#[tactic(auto, unfolding(crate::specs::Reading::initialised_at))]
fn initialised_at<'a>(
    furthest: &mut Furthest,
    inner: u8,
    ty: Boxed<Type>,
    name: Identifier,
    height: u32,
    tokens: &'a [Token],
) -> Result<Option<(Simple, u32, &'a [Token])>, NoMemory>
    requires low { height ≤ inner }
    ensures read { Gives result (initialised_at inner ty name height tokens.now) }
    ensures within { Within inner result }
{
    let (initial, initial_height, rest) = may_initial_at(furthest, inner, tokens)?;
    let ty = ty.into_inner();
    let simple = Simple::Declaration {
        at: ty.at(),
        ty,
        name,
        initial,
    };
    Ok(Some((simple, height.max(initial_height), rest)))
}

// `ID [= expr]` after a type.
#[tactic(auto, unfolding(crate::specs::Reading::declared_at))]
fn declared_at<'a>(
    furthest: &mut Furthest,
    inner: u8,
    ty: Boxed<Type>,
    height: u32,
    tokens: &'a [Token],
) -> Result<Option<(Simple, u32, &'a [Token])>, NoMemory>
    requires low { height ≤ inner }
    ensures read { Gives result (declared_at inner ty height tokens.now) }
    ensures within { Within inner result }
{
    let Some((name, rest)) = name_at(furthest, tokens)? else {
        return Ok(None);
    };
    initialised_at(furthest, inner, ty, name, height, rest)
}

// `type ID [= expr]`
#[tactic(auto, unfolding(crate::specs::Reading::declaration_at))]
fn declaration_at<'a>(
    furthest: &mut Furthest,
    inner: u8,
    tokens: &'a [Token],
) -> Result<Option<(Simple, u32, &'a [Token])>, NoMemory>
    ensures read { Gives result (declaration_at inner tokens.now) }
    ensures within { Within inner result }
{
    let Some((ty, height, rest)) = type_at(furthest, inner, tokens)? else {
        return Ok(None);
    };
    let ty = Boxed::new(furthest.alloc, ty)?;
    declared_at(furthest, inner, ty, height, rest)
}

// What is assigned to `target`.
#[tactic(auto, unfolding(crate::specs::Reading::assigned_at))]
fn assigned_at<'a>(
    furthest: &mut Furthest,
    inner: u8,
    target: Boxed<ExprTree>,
    height: u32,
    operator_at: u32,
    operator: AssignOp,
    tokens: &'a [Token],
) -> Result<Option<(Simple, u32, &'a [Token])>, NoMemory>
    requires low { height ≤ inner }
    ensures read { Gives result (assigned_at inner target height operator_at operator tokens.now) }
    ensures within { Within inner result }
{
    let Some((value, value_height, rest)) = expr_at(furthest, inner, 10, tokens)? else {
        return Ok(None);
    };
    let target = target.into_inner();
    let simple = Simple::Assignment {
        at: target.at(),
        target,
        operator_at,
        operator,
        value,
    };
    Ok(Some((simple, height.max(value_height), rest)))
}

// An expression that was read, with what is done to it.
#[tactic(auto, unfolding(crate::specs::Reading::after_at))]
fn after_at<'a>(
    furthest: &mut Furthest,
    inner: u8,
    expr: ExprTree,
    height: u32,
    tokens: &'a [Token],
) -> Result<Option<(Simple, u32, &'a [Token])>, NoMemory>
    requires low { height ≤ inner }
    ensures read { Gives result (after_at inner expr height tokens.now) }
    ensures within { Within inner result }
{
    if let Some(((operator_at, operator), rest)) = assign_at(furthest, tokens) {
        let target = Boxed::new(furthest.alloc, expr)?;
        return assigned_at(furthest, inner, target, height, operator_at, operator, rest);
    }
    let at = expr.at();
    if let Some(((operator_at, operator), rest)) = step_at(furthest, tokens) {
        let simple = Simple::StepAfter {
            at,
            target: expr,
            operator_at,
            operator,
        };
        return Ok(Some((simple, height, rest)));
    }
    Ok(Some((Simple::Expression { at, expr }, height, tokens)))
}

// What begins with an expression.
#[tactic(auto, unfolding(crate::specs::Reading::led_at))]
fn led_at<'a>(
    furthest: &mut Furthest,
    inner: u8,
    tokens: &'a [Token],
) -> Result<Option<(Simple, u32, &'a [Token])>, NoMemory>
    ensures read { Gives result (led_at inner tokens.now) }
    ensures within { Within inner result }
{
    let Some((expr, height, rest)) = expr_at(furthest, inner, 10, tokens)? else {
        return Ok(None);
    };
    after_at(furthest, inner, expr, height, rest)
}

// `++ expr`, `-- expr`
#[tactic(auto, unfolding(crate::specs::Reading::step_before_at))]
fn step_before_at<'a>(
    furthest: &mut Furthest,
    inner: u8,
    tokens: &'a [Token],
) -> Result<Option<(Simple, u32, &'a [Token])>, NoMemory>
    ensures read { Gives result (step_before_at inner tokens.now) }
    ensures within { Within inner result }
{
    let Some(((at, operator), rest)) = step_at(furthest, tokens) else {
        return Ok(None);
    };
    let Some((target, height, rest)) = expr_at(furthest, inner, 10, rest)? else {
        return Ok(None);
    };
    let simple = Simple::StepBefore {
        at,
        operator,
        target,
    };
    Ok(Some((simple, height, rest)))
}

// `delete expr`
#[tactic(auto, unfolding(crate::specs::Reading::delete_at))]
fn delete_at<'a>(
    furthest: &mut Furthest,
    inner: u8,
    tokens: &'a [Token],
) -> Result<Option<(Simple, u32, &'a [Token])>, NoMemory>
    ensures read { Gives result (delete_at inner tokens.now) }
    ensures within { Within inner result }
{
    let Some((at, rest)) = word_at(furthest, b"delete", tokens) else {
        return Ok(None);
    };
    let Some((target, height, rest)) = expr_at(furthest, inner, 10, rest)? else {
        return Ok(None);
    };
    Ok(Some((Simple::Delete { at, target }, height, rest)))
}

/// What may stand before a `;`.
#[tactic(auto, unfolding(crate::specs::Reading::simple_at))]
pub fn simple_at<'a>(
    furthest: &mut Furthest,
    inner: u8,
    tokens: &'a [Token],
) -> Result<Option<(Simple, u32, &'a [Token])>, NoMemory>
    ensures read { Gives result (simple_at inner tokens.now) }
    ensures within { Within inner result }
{
    if let Some(found) = declaration_at(furthest, inner, tokens)? {
        return Ok(Some(found));
    }
    if let Some(found) = step_before_at(furthest, inner, tokens)? {
        return Ok(Some(found));
    }
    if let Some(found) = delete_at(furthest, inner, tokens)? {
        return Ok(Some(found));
    }
    led_at(furthest, inner, tokens)
}

/// `[simple]`
#[tactic(auto, unfolding(crate::specs::Reading::may_simple_at))]
pub fn may_simple_at<'a>(
    furthest: &mut Furthest,
    inner: u8,
    tokens: &'a [Token],
) -> Result<(Option<Simple>, u32, &'a [Token]), NoMemory>
    ensures read { GivesOne result (may_simple_at inner tokens.now) }
    ensures within { WithinOne inner result }
{
    match simple_at(furthest, inner, tokens)? {
        None => Ok((None, 0, tokens)),
        Some((simple, height, rest)) => Ok((Some(simple), height, rest)),
    }
}
