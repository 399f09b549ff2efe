// Statements and blocks. What is read comes with its levels and the tokens after it. `inner` is how many levels the
// statements, types and expressions inside it may have.

ghost use Rattle.std.specs.Prelude.{[], ◌≡◌, ◌≤◌, ◌+◌, length};
ghost use Rattle.sol_parse_expr.specs.Reading.{Gives, GivesOne, Within, WithinOne, or_tree};
ghost use Rattle.sol_parse_stmt.specs.Reading.{block_at, braced_at, braces_at, chosen_at, compound_at, do_at, for_at, headed_at, if_at, may_else_at, otherwise_at, repeated_at, statements_at, stmt_at, unchecked_at, until_at, while_at};

use crate::leaf::leaf_at;
use crate::parts::{Head, condition_at, head_at};
use chc_nums::NoMemory;
use sol_parse_expr::{Furthest, mark_at, word_at};
use sol_tree::{Block, ExprTree, Stmt, Token};
use sqlite_items::{Boxed, Items};

// Statements, until none stands there.
#[cycle(statements)]
#[tactic(auto, using(crate::proofs::Loops::statement_loops))]
fn statements_at<'a>(
    furthest: &mut Furthest,
    inner: u8,
    tokens: &'a [Token],
) -> Result<(Items<Stmt>, u32, &'a [Token]), NoMemory>
    ensures read { GivesOne result (statements_at (stmt_at inner) (length tokens.now) [] 0 tokens.now) }
    ensures within { WithinOne inner result }
{
    let mut so_far = Items::new(furthest.alloc);
    let mut height = 0;
    let mut rest = tokens;
    for _turn in 0..tokens.len() {
        let Some((stmt, stmt_height, after)) = stmt_at(furthest, inner, rest)? else {
            return Ok((so_far, height, rest));
        };
        so_far.push(stmt)?;
        height = height.max(stmt_height);
        rest = after;
    }
    Ok((so_far, height, rest))
}

// `{ {stmt} }`
#[cycle(statements)]
#[tactic(auto, unfolding(crate::specs::Reading::braces_at))]
fn braces_at<'a>(
    furthest: &mut Furthest,
    inner: u8,
    tokens: &'a [Token],
) -> Result<Option<(Block, u32, &'a [Token])>, NoMemory>
    ensures read { Gives result (braces_at (stmt_at inner) tokens.now) }
    ensures within { Within inner result }
{
    let Some((at, rest)) = mark_at(furthest, b"{", tokens) else {
        return Ok(None);
    };
    let (statements, height, rest) = statements_at(furthest, inner, rest)?;
    let Some((_, rest)) = mark_at(furthest, b"}", rest) else {
        return Ok(None);
    };
    Ok(Some((Block { at, statements }, height, rest)))
}

// A block as a statement.
#[cycle(statements)]
#[tactic(auto, unfolding(crate::specs::Reading::braced_at))]
fn braced_at<'a>(
    furthest: &mut Furthest,
    inner: u8,
    tokens: &'a [Token],
) -> Result<Option<(Stmt, u32, &'a [Token])>, NoMemory>
    ensures read { Gives result (braced_at (stmt_at inner) tokens.now) }
    ensures within { Within (inner + 1) result }
{
    let Some((block, height, rest)) = braces_at(furthest, inner, tokens)? else {
        return Ok(None);
    };
    let stmt = Stmt::Block {
        at: block.at,
        statements: block.statements,
    };
    Ok(Some((stmt, height + 1, rest)))
}

// `unchecked { {stmt} }`
#[cycle(statements)]
#[tactic(auto, unfolding(crate::specs::Reading::unchecked_at))]
fn unchecked_at<'a>(
    furthest: &mut Furthest,
    inner: u8,
    tokens: &'a [Token],
) -> Result<Option<(Stmt, u32, &'a [Token])>, NoMemory>
    ensures read { Gives result (unchecked_at (stmt_at inner) tokens.now) }
    ensures within { Within (inner + 1) result }
{
    let Some((at, rest)) = word_at(furthest, b"unchecked", tokens) else {
        return Ok(None);
    };
    let Some((block, height, rest)) = braces_at(furthest, inner, rest)? else {
        return Ok(None);
    };
    let stmt = Stmt::Unchecked {
        at,
        statements: block.statements,
    };
    Ok(Some((stmt, height + 1, rest)))
}

// A statement inside another one.
#[cycle(statements)]
fn boxed_at<'a>(
    furthest: &mut Furthest,
    inner: u8,
    tokens: &'a [Token],
) -> Result<Option<(Boxed<Stmt>, u32, &'a [Token])>, NoMemory>
    ensures read { Gives result (stmt_at inner tokens.now) }
    ensures within { Within inner result }
{
    let Some((stmt, height, rest)) = stmt_at(furthest, inner, tokens)? else {
        return Ok(None);
    };
    Ok(Some((Boxed::new(furthest.alloc, stmt)?, height, rest)))
}

// `[else stmt]`
#[cycle(statements)]
#[tactic(auto, unfolding(crate::specs::Reading::may_else_at))]
fn may_else_at<'a>(
    furthest: &mut Furthest,
    inner: u8,
    tokens: &'a [Token],
) -> Result<Option<(Option<Boxed<Stmt>>, u32, &'a [Token])>, NoMemory>
    ensures read { Gives result (may_else_at (stmt_at inner) tokens.now) }
    ensures within { Within inner result }
{
    let Some((_, rest)) = word_at(furthest, b"else", tokens) else {
        return Ok(Some((None, 0, tokens)));
    };
    let Some((stmt, height, rest)) = boxed_at(furthest, inner, rest)? else {
        return Ok(None);
    };
    Ok(Some((Some(stmt), height, rest)))
}

// `[else stmt]` of an `if`.
#[cycle(statements)]
#[tactic(auto, unfolding(crate::specs::Reading::otherwise_at))]
fn otherwise_at<'a>(
    furthest: &mut Furthest,
    inner: u8,
    at: u32,
    condition: Boxed<ExprTree>,
    chosen: Boxed<Stmt>,
    condition_height: u32,
    chosen_height: u32,
    tokens: &'a [Token],
) -> Result<Option<(Stmt, u32, &'a [Token])>, NoMemory>
    requires condition_low { condition_height ≤ inner }
    requires chosen_low { chosen_height ≤ inner }
    ensures read { Gives result (otherwise_at (stmt_at inner) at condition chosen condition_height chosen_height tokens.now) }
    ensures within { Within (inner + 1) result }
{
    let Some((otherwise, height, rest)) = may_else_at(furthest, inner, tokens)? else {
        return Ok(None);
    };
    let stmt = Stmt::If {
        at,
        condition: condition.into_inner(),
        chosen,
        otherwise,
    };
    Ok(Some((
        stmt,
        condition_height.max(chosen_height.max(height)) + 1,
        rest,
    )))
}

// `stmt [else stmt]` of an `if`.
#[cycle(statements)]
#[tactic(auto, unfolding(crate::specs::Reading::chosen_at))]
fn chosen_at<'a>(
    furthest: &mut Furthest,
    inner: u8,
    at: u32,
    condition: Boxed<ExprTree>,
    height: u32,
    tokens: &'a [Token],
) -> Result<Option<(Stmt, u32, &'a [Token])>, NoMemory>
    requires low { height ≤ inner }
    ensures read { Gives result (chosen_at (stmt_at inner) at condition height tokens.now) }
    ensures within { Within (inner + 1) result }
{
    let Some((chosen, chosen_height, rest)) = boxed_at(furthest, inner, tokens)? else {
        return Ok(None);
    };
    otherwise_at(
        furthest,
        inner,
        at,
        condition,
        chosen,
        height,
        chosen_height,
        rest,
    )
}

// `if ( expr ) stmt [else stmt]`
#[cycle(statements)]
#[tactic(auto, unfolding(crate::specs::Reading::if_at))]
fn if_at<'a>(
    furthest: &mut Furthest,
    inner: u8,
    tokens: &'a [Token],
) -> Result<Option<(Stmt, u32, &'a [Token])>, NoMemory>
    ensures read { Gives result (if_at inner (stmt_at inner) tokens.now) }
    ensures within { Within (inner + 1) result }
{
    let Some((at, rest)) = word_at(furthest, b"if", tokens) else {
        return Ok(None);
    };
    let Some((condition, height, rest)) = condition_at(furthest, inner, rest)? else {
        return Ok(None);
    };
    chosen_at(furthest, inner, at, condition, height, rest)
}

// The body of a `while`.
#[cycle(statements)]
#[tactic(auto, unfolding(crate::specs::Reading::repeated_at))]
fn repeated_at<'a>(
    furthest: &mut Furthest,
    inner: u8,
    at: u32,
    condition: Boxed<ExprTree>,
    height: u32,
    tokens: &'a [Token],
) -> Result<Option<(Stmt, u32, &'a [Token])>, NoMemory>
    requires low { height ≤ inner }
    ensures read { Gives result (repeated_at (stmt_at inner) at condition height tokens.now) }
    ensures within { Within (inner + 1) result }
{
    let Some((body, body_height, rest)) = boxed_at(furthest, inner, tokens)? else {
        return Ok(None);
    };
    let stmt = Stmt::While {
        at,
        condition: condition.into_inner(),
        body,
    };
    Ok(Some((stmt, height.max(body_height) + 1, rest)))
}

// `while ( expr ) stmt`
#[cycle(statements)]
#[tactic(auto, unfolding(crate::specs::Reading::while_at))]
fn while_at<'a>(
    furthest: &mut Furthest,
    inner: u8,
    tokens: &'a [Token],
) -> Result<Option<(Stmt, u32, &'a [Token])>, NoMemory>
    ensures read { Gives result (while_at inner (stmt_at inner) tokens.now) }
    ensures within { Within (inner + 1) result }
{
    let Some((at, rest)) = word_at(furthest, b"while", tokens) else {
        return Ok(None);
    };
    let Some((condition, height, rest)) = condition_at(furthest, inner, rest)? else {
        return Ok(None);
    };
    repeated_at(furthest, inner, at, condition, height, rest)
}

// `while ( expr ) ;` of a `do`.
#[tactic(auto, unfolding(crate::specs::Reading::until_at))]
fn until_at<'a>(
    furthest: &mut Furthest,
    inner: u8,
    at: u32,
    body: Boxed<Stmt>,
    height: u32,
    tokens: &'a [Token],
) -> Result<Option<(Stmt, u32, &'a [Token])>, NoMemory>
    requires low { height ≤ inner }
    ensures read { Gives result (until_at inner at body height tokens.now) }
    ensures within { Within (inner + 1) result }
{
    let Some((_, rest)) = word_at(furthest, b"while", tokens) else {
        return Ok(None);
    };
    let Some((condition, condition_height, rest)) = condition_at(furthest, inner, rest)? else {
        return Ok(None);
    };
    let Some((_, rest)) = mark_at(furthest, b";", rest) else {
        return Ok(None);
    };
    let stmt = Stmt::DoWhile {
        at,
        body,
        condition: condition.into_inner(),
    };
    Ok(Some((stmt, height.max(condition_height) + 1, rest)))
}

// `do stmt while ( expr ) ;`
#[cycle(statements)]
#[tactic(auto, unfolding(crate::specs::Reading::do_at))]
fn do_at<'a>(
    furthest: &mut Furthest,
    inner: u8,
    tokens: &'a [Token],
) -> Result<Option<(Stmt, u32, &'a [Token])>, NoMemory>
    ensures read { Gives result (do_at inner (stmt_at inner) tokens.now) }
    ensures within { Within (inner + 1) result }
{
    let Some((at, rest)) = word_at(furthest, b"do", tokens) else {
        return Ok(None);
    };
    let Some((body, height, rest)) = boxed_at(furthest, inner, rest)? else {
        return Ok(None);
    };
    until_at(furthest, inner, at, body, height, rest)
}

// The body of a `for`.
#[cycle(statements)]
#[tactic(auto, unfolding(crate::specs::Reading::headed_at))]
fn headed_at<'a>(
    furthest: &mut Furthest,
    inner: u8,
    at: u32,
    head: Head,
    height: u32,
    tokens: &'a [Token],
) -> Result<Option<(Stmt, u32, &'a [Token])>, NoMemory>
    requires low { height ≤ inner }
    ensures read { Gives result (headed_at (stmt_at inner) at head height tokens.now) }
    ensures within { Within (inner + 1) result }
{
    let Some((body, body_height, rest)) = boxed_at(furthest, inner, tokens)? else {
        return Ok(None);
    };
    let stmt = Stmt::For {
        at,
        start: head.start.into_inner(),
        condition: head.condition.into_inner(),
        step: head.step.into_inner(),
        body,
    };
    Ok(Some((stmt, height.max(body_height) + 1, rest)))
}

// `for ( [simple] ; [expr] ; [simple] ) stmt`
#[cycle(statements)]
#[tactic(auto, unfolding(crate::specs::Reading::for_at))]
fn for_at<'a>(
    furthest: &mut Furthest,
    inner: u8,
    tokens: &'a [Token],
) -> Result<Option<(Stmt, u32, &'a [Token])>, NoMemory>
    ensures read { Gives result (for_at inner (stmt_at inner) tokens.now) }
    ensures within { Within (inner + 1) result }
{
    let Some((at, rest)) = word_at(furthest, b"for", tokens) else {
        return Ok(None);
    };
    let Some((head, height, rest)) = head_at(furthest, inner, rest)? else {
        return Ok(None);
    };
    headed_at(furthest, inner, at, head, height, rest)
}

// A loop.
#[cycle(statements)]
fn loop_at<'a>(
    furthest: &mut Furthest,
    inner: u8,
    tokens: &'a [Token],
) -> Result<Option<(Stmt, u32, &'a [Token])>, NoMemory>
    ensures read { Gives result (or_tree (while_at inner (stmt_at inner) tokens.now) (or_tree (do_at inner (stmt_at inner) tokens.now) (for_at inner (stmt_at inner) tokens.now))) }
    ensures within { Within (inner + 1) result }
{
    if let Some(found) = while_at(furthest, inner, tokens)? {
        return Ok(Some(found));
    }
    if let Some(found) = do_at(furthest, inner, tokens)? {
        return Ok(Some(found));
    }
    for_at(furthest, inner, tokens)
}

// A statement with statements inside.
#[cycle(statements)]
#[tactic(auto, unfolding(crate::specs::Reading::compound_at))]
fn compound_at<'a>(
    furthest: &mut Furthest,
    inner: u8,
    tokens: &'a [Token],
) -> Result<Option<(Stmt, u32, &'a [Token])>, NoMemory>
    ensures read { Gives result (compound_at inner (stmt_at inner) tokens.now) }
    ensures within { Within (inner + 1) result }
{
    if let Some(found) = braced_at(furthest, inner, tokens)? {
        return Ok(Some(found));
    }
    if let Some(found) = unchecked_at(furthest, inner, tokens)? {
        return Ok(Some(found));
    }
    if let Some(found) = if_at(furthest, inner, tokens)? {
        return Ok(Some(found));
    }
    loop_at(furthest, inner, tokens)
}

/// A statement of at most so many levels. An `else` belongs to the nearest `if`.
#[cycle(statements)]
#[tactic(auto, using(crate::proofs::Loops::stmt_levels))]
pub fn stmt_at<'a>(
    furthest: &mut Furthest,
    levels_left: u8,
    tokens: &'a [Token],
) -> Result<Option<(Stmt, u32, &'a [Token])>, NoMemory>
    ensures read { Gives result (stmt_at levels_left tokens.now) }
    ensures within { Within levels_left result }
{
    if levels_left == 0 {
        return Ok(None);
    }
    if let Some(found) = compound_at(furthest, levels_left - 1, tokens)? {
        return Ok(Some(found));
    }
    leaf_at(furthest, levels_left - 1, tokens)
}

/// The block of a body, whose statements have at most so many levels.
#[tactic(auto, unfolding(crate::specs::Reading::block_at))]
pub fn block_at<'a>(
    furthest: &mut Furthest,
    levels_left: u8,
    tokens: &'a [Token],
) -> Result<Option<(Block, u32, &'a [Token])>, NoMemory>
    ensures read { Gives result (block_at levels_left tokens.now) }
    ensures within { Within levels_left result }
{
    braces_at(furthest, levels_left, tokens)
}
