// One token or two at the head of tokens.

ghost use Rattle.std.specs.Prelude.{◌≡◌, Some};
ghost use Rattle.sol_parse_expr.specs.Reading.{Reads};
ghost use Rattle.sol_parse_stmt.specs.Reading.{alone_at, assign_at, is_text, may_reason_at, may_text_at, reason_at, step_at, text_at};

use sol_parse_expr::{Furthest, mark_at, word_at};
use sol_tree::{AssignOp, StepOp, Text, Token, TokenKind};

fn is_text(kind: &TokenKind) -> bool
    ensures { result ≡ is_text kind.now }
{
    match kind {
        TokenKind::Word(_) => false,
        TokenKind::Number { .. } => false,
        TokenKind::Text => true,
        TokenKind::Mark(_) => false,
    }
}

#[tactic(auto, unfolding(crate::specs::Reading::text_at))]
fn text_at<'a>(furthest: &mut Furthest, tokens: &'a [Token]) -> Option<(Text, &'a [Token])>
    ensures { Reads result (text_at tokens.now) }
{
    furthest.note(tokens);
    match tokens {
        [] => None,
        [first, rest @ ..] => {
            if is_text(&first.kind) {
                Some((Text { at: first.at }, rest))
            } else {
                None
            }
        }
    }
}

/// A text, where one stands.
#[tactic(auto, unfolding(crate::specs::Reading::may_text_at))]
pub fn may_text_at<'a>(furthest: &mut Furthest, tokens: &'a [Token]) -> (Option<Text>, &'a [Token])
    ensures { may_text_at tokens.now ≡ Some (result.0, result.1.now) }
{
    match text_at(furthest, tokens) {
        None => (None, tokens),
        Some((text, rest)) => (Some(text), rest),
    }
}

// `, TEXT`
#[tactic(auto, unfolding(crate::specs::Reading::reason_at))]
fn reason_at<'a>(furthest: &mut Furthest, tokens: &'a [Token]) -> Option<(Text, &'a [Token])>
    ensures { Reads result (reason_at tokens.now) }
{
    match mark_at(furthest, b",", tokens) {
        None => None,
        Some((_, rest)) => text_at(furthest, rest),
    }
}

/// A comma and a text, where they stand.
#[tactic(auto, unfolding(crate::specs::Reading::may_reason_at))]
pub fn may_reason_at<'a>(
    furthest: &mut Furthest,
    tokens: &'a [Token],
) -> (Option<Text>, &'a [Token])
    ensures { may_reason_at tokens.now ≡ Some (result.0, result.1.now) }
{
    match reason_at(furthest, tokens) {
        None => (None, tokens),
        Some((text, rest)) => (Some(text), rest),
    }
}

/// An operator that assigns, with its place.
#[tactic(auto, unfolding(crate::specs::Reading::assign_at))]
pub fn assign_at<'a>(
    furthest: &mut Furthest,
    tokens: &'a [Token],
) -> Option<((u32, AssignOp), &'a [Token])>
    ensures { Reads result (assign_at tokens.now) }
{
    if let Some((at, rest)) = mark_at(furthest, b"=", tokens) {
        return Some(((at, AssignOp::Assign), rest));
    }
    if let Some((at, rest)) = mark_at(furthest, b"+=", tokens) {
        return Some(((at, AssignOp::Add), rest));
    }
    if let Some((at, rest)) = mark_at(furthest, b"-=", tokens) {
        return Some(((at, AssignOp::Subtract), rest));
    }
    if let Some((at, rest)) = mark_at(furthest, b"*=", tokens) {
        return Some(((at, AssignOp::Multiply), rest));
    }
    if let Some((at, rest)) = mark_at(furthest, b"/=", tokens) {
        return Some(((at, AssignOp::Divide), rest));
    }
    if let Some((at, rest)) = mark_at(furthest, b"%=", tokens) {
        return Some(((at, AssignOp::Remainder), rest));
    }
    None
}

/// An operator that steps by one, with its place.
#[tactic(auto, unfolding(crate::specs::Reading::step_at))]
pub fn step_at<'a>(
    furthest: &mut Furthest,
    tokens: &'a [Token],
) -> Option<((u32, StepOp), &'a [Token])>
    ensures { Reads result (step_at tokens.now) }
{
    if let Some((at, rest)) = mark_at(furthest, b"++", tokens) {
        return Some(((at, StepOp::Increment), rest));
    }
    if let Some((at, rest)) = mark_at(furthest, b"--", tokens) {
        return Some(((at, StepOp::Decrement), rest));
    }
    None
}

/// A word and `;`, as the word's place.
#[tactic(auto, unfolding(crate::specs::Reading::alone_at))]
pub fn alone_at<'a>(
    furthest: &mut Furthest,
    wanted: &[u8],
    tokens: &'a [Token],
) -> Option<(u32, &'a [Token])>
    ensures { Reads result (alone_at wanted.now tokens.now) }
{
    let (at, rest) = word_at(furthest, wanted, tokens)?;
    let (_, rest) = mark_at(furthest, b";", rest)?;
    Some((at, rest))
}
