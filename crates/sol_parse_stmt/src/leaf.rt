// Statements without statements inside. What is read comes with its levels and the tokens after it. `inner` is how many
// levels the types and expressions inside it may have.

ghost use Rattle.std.specs.Prelude.{◌≡◌, ◌≤◌, ◌+◌};
ghost use Rattle.sol_parse_expr.specs.Reading.{Gives, ReadsTree, Within, WithinTree, or_tree};
ghost use Rattle.sol_parse_stmt.specs.Grammar.{simple_place};
ghost use Rattle.sol_tree.specs.declared.stmt.Stmt as stmt;
ghost use Rattle.sol_parse_stmt.specs.Reading.{assert_at, emit_at, jump_at, leaf_at, plain_at, require_at, return_at, revert_at, revert_with_at};

use crate::parts::{condition_at, may_expr_at, sent_at};
use crate::simple::simple_at;
use crate::steps::{alone_at, may_reason_at, may_text_at};
use chc_nums::NoMemory;
use sol_parse_expr::{Furthest, expr_at, mark_at, word_at};
use sol_tree::{Simple, Stmt, Token};
use sqlite_items::Boxed;

// The place of its first token.
fn simple_place(simple: &Simple) -> u32
    ensures { result ≡ simple_place simple.now }
{
    match simple {
        Simple::Declaration { at, .. } => *at,
        Simple::Assignment { at, .. } => *at,
        Simple::StepAfter { at, .. } => *at,
        Simple::StepBefore { at, .. } => *at,
        Simple::Delete { at, .. } => *at,
        Simple::Expression { at, .. } => *at,
    }
}

fn plain_of(simple: Simple) -> Stmt
    ensures { result ≡ stmt.Simple (simple_place simple) simple }
{
    let at = simple_place(&simple);
    Stmt::Simple { at, simple }
}

// `simple ;`
#[tactic(auto, unfolding(crate::specs::Reading::plain_at))]
fn plain_at<'a>(
    furthest: &mut Furthest,
    inner: u8,
    tokens: &'a [Token],
) -> Result<Option<(Stmt, u32, &'a [Token])>, NoMemory>
    ensures read { Gives result (plain_at inner tokens.now) }
    ensures within { Within (inner + 1) result }
{
    let Some((simple, height, rest)) = simple_at(furthest, inner, tokens)? else {
        return Ok(None);
    };
    let simple = Boxed::new(furthest.alloc, simple)?;
    let Some((_, rest)) = mark_at(furthest, b";", rest) else {
        return Ok(None);
    };
    Ok(Some((plain_of(simple.into_inner()), height + 1, rest)))
}

// `break ;`, `continue ;` and `_ ;`
#[tactic(auto, unfolding(crate::specs::Reading::jump_at))]
fn jump_at<'a>(furthest: &mut Furthest, tokens: &'a [Token]) -> Option<(Stmt, u32, &'a [Token])>
    ensures read { ReadsTree result (jump_at tokens.now) }
    ensures within { WithinTree 1 result }
{
    if let Some((at, rest)) = alone_at(furthest, b"break", tokens) {
        return Some((Stmt::Break { at }, 1, rest));
    }
    if let Some((at, rest)) = alone_at(furthest, b"continue", tokens) {
        return Some((Stmt::Continue { at }, 1, rest));
    }
    if let Some((at, rest)) = alone_at(furthest, b"_", tokens) {
        return Some((Stmt::Placeholder { at }, 1, rest));
    }
    None
}

// `return [expr] ;`
#[tactic(auto, unfolding(crate::specs::Reading::return_at))]
fn return_at<'a>(
    furthest: &mut Furthest,
    inner: u8,
    tokens: &'a [Token],
) -> Result<Option<(Stmt, u32, &'a [Token])>, NoMemory>
    ensures read { Gives result (return_at inner tokens.now) }
    ensures within { Within (inner + 1) result }
{
    let Some((at, rest)) = word_at(furthest, b"return", tokens) else {
        return Ok(None);
    };
    let (value, height, rest) = may_expr_at(furthest, inner, rest)?;
    let value = Boxed::new(furthest.alloc, value)?;
    let Some((_, rest)) = mark_at(furthest, b";", rest) else {
        return Ok(None);
    };
    let stmt = Stmt::Return {
        at,
        value: value.into_inner(),
    };
    Ok(Some((stmt, height + 1, rest)))
}

// `emit ID ( [args] ) ;`
#[tactic(auto, unfolding(crate::specs::Reading::emit_at))]
fn emit_at<'a>(
    furthest: &mut Furthest,
    inner: u8,
    tokens: &'a [Token],
) -> Result<Option<(Stmt, u32, &'a [Token])>, NoMemory>
    ensures read { Gives result (emit_at inner tokens.now) }
    ensures within { Within (inner + 1) result }
{
    let Some((at, rest)) = word_at(furthest, b"emit", tokens) else {
        return Ok(None);
    };
    let Some((sent, height, rest)) = sent_at(furthest, inner, rest)? else {
        return Ok(None);
    };
    let stmt = Stmt::Emit {
        at,
        event: sent.name,
        arguments: sent.arguments,
    };
    Ok(Some((stmt, height + 1, rest)))
}

// `revert ID ( [args] ) ;`
#[tactic(auto, unfolding(crate::specs::Reading::revert_with_at))]
fn revert_with_at<'a>(
    furthest: &mut Furthest,
    inner: u8,
    tokens: &'a [Token],
) -> Result<Option<(Stmt, u32, &'a [Token])>, NoMemory>
    ensures read { Gives result (revert_with_at inner tokens.now) }
    ensures within { Within (inner + 1) result }
{
    let Some((at, rest)) = word_at(furthest, b"revert", tokens) else {
        return Ok(None);
    };
    let Some((sent, height, rest)) = sent_at(furthest, inner, rest)? else {
        return Ok(None);
    };
    let stmt = Stmt::RevertWith {
        at,
        error: sent.name,
        arguments: sent.arguments,
    };
    Ok(Some((stmt, height + 1, rest)))
}

// `revert ( [TEXT] ) ;`
#[tactic(auto, unfolding(crate::specs::Reading::revert_at))]
fn revert_at<'a>(furthest: &mut Furthest, tokens: &'a [Token]) -> Option<(Stmt, u32, &'a [Token])>
    ensures read { ReadsTree result (revert_at tokens.now) }
    ensures within { WithinTree 1 result }
{
    let (at, rest) = word_at(furthest, b"revert", tokens)?;
    let (_, rest) = mark_at(furthest, b"(", rest)?;
    let (text, rest) = may_text_at(furthest, rest);
    let (_, rest) = mark_at(furthest, b")", rest)?;
    let (_, rest) = mark_at(furthest, b";", rest)?;
    Some((Stmt::Revert { at, text }, 1, rest))
}

// `require ( expr [, TEXT] ) ;`
#[tactic(auto, unfolding(crate::specs::Reading::require_at))]
fn require_at<'a>(
    furthest: &mut Furthest,
    inner: u8,
    tokens: &'a [Token],
) -> Result<Option<(Stmt, u32, &'a [Token])>, NoMemory>
    ensures read { Gives result (require_at inner tokens.now) }
    ensures within { Within (inner + 1) result }
{
    let Some((at, rest)) = word_at(furthest, b"require", tokens) else {
        return Ok(None);
    };
    let Some((_, rest)) = mark_at(furthest, b"(", rest) else {
        return Ok(None);
    };
    let Some((condition, height, rest)) = expr_at(furthest, inner, 10, rest)? else {
        return Ok(None);
    };
    let condition = Boxed::new(furthest.alloc, condition)?;
    let (text, rest) = may_reason_at(furthest, rest);
    let Some((_, rest)) = mark_at(furthest, b")", rest) else {
        return Ok(None);
    };
    let Some((_, rest)) = mark_at(furthest, b";", rest) else {
        return Ok(None);
    };
    let stmt = Stmt::Require {
        at,
        condition: condition.into_inner(),
        text,
    };
    Ok(Some((stmt, height + 1, rest)))
}

// `assert ( expr ) ;`
#[tactic(auto, unfolding(crate::specs::Reading::assert_at))]
fn assert_at<'a>(
    furthest: &mut Furthest,
    inner: u8,
    tokens: &'a [Token],
) -> Result<Option<(Stmt, u32, &'a [Token])>, NoMemory>
    ensures read { Gives result (assert_at inner tokens.now) }
    ensures within { Within (inner + 1) result }
{
    let Some((at, rest)) = word_at(furthest, b"assert", tokens) else {
        return Ok(None);
    };
    let Some((condition, height, rest)) = condition_at(furthest, inner, rest)? else {
        return Ok(None);
    };
    let Some((_, rest)) = mark_at(furthest, b";", rest) else {
        return Ok(None);
    };
    let stmt = Stmt::Assert {
        at,
        condition: condition.into_inner(),
    };
    Ok(Some((stmt, height + 1, rest)))
}

// `assert` and what stands before a `;`.
fn last_at<'a>(
    furthest: &mut Furthest,
    inner: u8,
    tokens: &'a [Token],
) -> Result<Option<(Stmt, u32, &'a [Token])>, NoMemory>
    ensures read { Gives result (or_tree (assert_at inner tokens.now) (plain_at inner tokens.now)) }
    ensures within { Within (inner + 1) result }
{
    if let Some(found) = assert_at(furthest, inner, tokens)? {
        return Ok(Some(found));
    }
    plain_at(furthest, inner, tokens)
}

// `revert`, `require` and the last ones.
fn demand_at<'a>(
    furthest: &mut Furthest,
    inner: u8,
    tokens: &'a [Token],
) -> Result<Option<(Stmt, u32, &'a [Token])>, NoMemory>
    ensures read { Gives result (or_tree (revert_with_at inner tokens.now) (or_tree (revert_at tokens.now) (or_tree (require_at inner tokens.now) (or_tree (assert_at inner tokens.now) (plain_at inner tokens.now))))) }
    ensures within { Within (inner + 1) result }
{
    if let Some(found) = revert_with_at(furthest, inner, tokens)? {
        return Ok(Some(found));
    }
    if let Some(found) = revert_at(furthest, tokens) {
        return Ok(Some(found));
    }
    if let Some(found) = require_at(furthest, inner, tokens)? {
        return Ok(Some(found));
    }
    last_at(furthest, inner, tokens)
}

/// A statement without statements inside.
#[tactic(auto, unfolding(crate::specs::Reading::leaf_at))]
pub fn leaf_at<'a>(
    furthest: &mut Furthest,
    inner: u8,
    tokens: &'a [Token],
) -> Result<Option<(Stmt, u32, &'a [Token])>, NoMemory>
    ensures read { Gives result (leaf_at inner tokens.now) }
    ensures within { Within (inner + 1) result }
{
    if let Some(found) = jump_at(furthest, tokens) {
        return Ok(Some(found));
    }
    if let Some(found) = return_at(furthest, inner, tokens)? {
        return Ok(Some(found));
    }
    if let Some(found) = emit_at(furthest, inner, tokens)? {
        return Ok(Some(found));
    }
    demand_at(furthest, inner, tokens)
}
