// One token at the head of tokens.

ghost use Rattle.std.specs.Prelude.{◌≡◌, Some};
ghost use Rattle.sol_parse_expr.specs.Reading.{GivesRest, GivesValue, Reads, binary_of, elementary_at, is_mark, is_word, mark_at, may_name_at, may_unit_at, member_at, name_at, number_at, number_of, of_precedence, operator_at, type_of, unit_at, unit_of, word_at};

use crate::furthest::Furthest;
use chc_nums::{NoMemory, Ty};
use sol_tree::{
    BinaryOp, Identifier, NumberUnit, Token, TokenKind, elementary_type, is_name, number_unit,
    operator_of,
};

fn is_mark(wanted: &[u8], kind: &TokenKind) -> bool
    ensures { result ≡ is_mark wanted.now kind.now }
{
    match kind {
        TokenKind::Word(_) => false,
        TokenKind::Number { .. } => false,
        TokenKind::Text => false,
        TokenKind::Mark(mark) => mark.as_str().as_bytes() == wanted,
    }
}

fn is_word(wanted: &[u8], kind: &TokenKind) -> bool
    ensures { result ≡ is_word wanted.now kind.now }
{
    match kind {
        TokenKind::Word(word) => word.as_str().as_bytes() == wanted,
        TokenKind::Number { .. } => false,
        TokenKind::Text => false,
        TokenKind::Mark(_) => false,
    }
}

/// A mark, as its place.
#[tactic(auto, unfolding(crate::specs::Reading::mark_at))]
pub fn mark_at<'a>(
    furthest: &mut Furthest,
    wanted: &[u8],
    tokens: &'a [Token],
) -> Option<(u32, &'a [Token])>
    ensures { Reads result (mark_at wanted.now tokens.now) }
{
    furthest.note(tokens);
    match tokens {
        [] => None,
        [first, rest @ ..] => {
            if is_mark(wanted, &first.kind) {
                Some((first.at, rest))
            } else {
                None
            }
        }
    }
}

/// A word, as its place.
#[tactic(auto, unfolding(crate::specs::Reading::word_at))]
pub fn word_at<'a>(
    furthest: &mut Furthest,
    wanted: &[u8],
    tokens: &'a [Token],
) -> Option<(u32, &'a [Token])>
    ensures { Reads result (word_at wanted.now tokens.now) }
{
    furthest.note(tokens);
    match tokens {
        [] => None,
        [first, rest @ ..] => {
            if is_word(wanted, &first.kind) {
                Some((first.at, rest))
            } else {
                None
            }
        }
    }
}

fn type_of(kind: &TokenKind) -> Option<Ty>
    ensures { result ≡ type_of kind.now }
{
    match kind {
        TokenKind::Word(word) => elementary_type(word.as_str().as_bytes()),
        TokenKind::Number { .. } => None,
        TokenKind::Text => None,
        TokenKind::Mark(_) => None,
    }
}

/// An elementary type, with its place.
#[tactic(auto, unfolding(crate::specs::Reading::elementary_at))]
pub fn elementary_at<'a>(
    furthest: &mut Furthest,
    tokens: &'a [Token],
) -> Option<((u32, Ty), &'a [Token])>
    ensures { Reads result (elementary_at tokens.now) }
{
    furthest.note(tokens);
    match tokens {
        [] => None,
        [first, rest @ ..] => match type_of(&first.kind) {
            None => None,
            Some(ty) => Some(((first.at, ty), rest)),
        },
    }
}

fn unit_of(kind: &TokenKind) -> Option<NumberUnit>
    ensures { result ≡ unit_of kind.now }
{
    match kind {
        TokenKind::Word(word) => number_unit(word.as_str().as_bytes()),
        TokenKind::Number { .. } => None,
        TokenKind::Text => None,
        TokenKind::Mark(_) => None,
    }
}

#[tactic(auto, unfolding(crate::specs::Reading::unit_at))]
fn unit_at<'a>(furthest: &mut Furthest, tokens: &'a [Token]) -> Option<(NumberUnit, &'a [Token])>
    ensures { Reads result (unit_at tokens.now) }
{
    furthest.note(tokens);
    match tokens {
        [] => None,
        [first, rest @ ..] => match unit_of(&first.kind) {
            None => None,
            Some(unit) => Some((unit, rest)),
        },
    }
}

/// A unit, where one stands.
#[tactic(auto, unfolding(crate::specs::Reading::may_unit_at))]
pub fn may_unit_at<'a>(
    furthest: &mut Furthest,
    tokens: &'a [Token],
) -> (Option<NumberUnit>, &'a [Token])
    ensures { may_unit_at tokens.now ≡ Some (result.0, result.1.now) }
{
    match unit_at(furthest, tokens) {
        None => (None, tokens),
        Some((unit, rest)) => (Some(unit), rest),
    }
}

fn binary_of(kind: &TokenKind) -> Option<BinaryOp>
    ensures { result ≡ binary_of kind.now }
{
    match kind {
        TokenKind::Word(_) => None,
        TokenKind::Number { .. } => None,
        TokenKind::Text => None,
        TokenKind::Mark(mark) => operator_of(mark.as_str().as_bytes()),
    }
}

fn of_precedence(precedence: u32, operator: Option<BinaryOp>) -> Option<BinaryOp>
    ensures { result ≡ of_precedence precedence operator }
{
    match operator {
        None => None,
        Some(operator) => {
            if operator.precedence() == precedence {
                Some(operator)
            } else {
                None
            }
        }
    }
}

/// An operator of this precedence between two operands, with its place.
#[tactic(auto, unfolding(crate::specs::Reading::operator_at))]
pub fn operator_at<'a>(
    furthest: &mut Furthest,
    precedence: u32,
    tokens: &'a [Token],
) -> Option<((u32, BinaryOp), &'a [Token])>
    ensures { Reads result (operator_at precedence tokens.now) }
{
    furthest.note(tokens);
    match tokens {
        [] => None,
        [first, rest @ ..] => match of_precedence(precedence, binary_of(&first.kind)) {
            None => None,
            Some(operator) => Some(((first.at, operator), rest)),
        },
    }
}

fn number_of(kind: &TokenKind) -> Option<(i128, bool)>
    ensures { result ≡ number_of kind.now }
{
    match kind {
        TokenKind::Word(_) => None,
        TokenKind::Number { value, hex } => Some((*value, *hex)),
        TokenKind::Text => None,
        TokenKind::Mark(_) => None,
    }
}

/// A number, with its place and whether it is hexadecimal.
#[tactic(auto, unfolding(crate::specs::Reading::number_at))]
pub fn number_at<'a>(
    furthest: &mut Furthest,
    tokens: &'a [Token],
) -> Option<((u32, (i128, bool)), &'a [Token])>
    ensures { Reads result (number_at tokens.now) }
{
    furthest.note(tokens);
    match tokens {
        [] => None,
        [first, rest @ ..] => match number_of(&first.kind) {
            None => None,
            Some(number) => Some(((first.at, number), rest)),
        },
    }
}

/// A name.
#[tactic(auto, unfolding(crate::specs::Reading::name_at))]
pub fn name_at<'a>(
    furthest: &mut Furthest,
    tokens: &'a [Token],
) -> Result<Option<(Identifier, &'a [Token])>, NoMemory>
    ensures { GivesValue result (name_at tokens.now) }
{
    furthest.note(tokens);
    match tokens {
        [] => Ok(None),
        [first, rest @ ..] => match &first.kind {
            TokenKind::Word(word) => {
                if is_name(word.as_str().as_bytes()) {
                    let name = word.copy(furthest.alloc)?;
                    Ok(Some((Identifier { at: first.at, name }, rest)))
                } else {
                    Ok(None)
                }
            }
            TokenKind::Number { .. } => Ok(None),
            TokenKind::Text => Ok(None),
            TokenKind::Mark(_) => Ok(None),
        },
    }
}

/// A name, where one stands.
#[tactic(auto, unfolding(crate::specs::Reading::may_name_at))]
pub fn may_name_at<'a>(
    furthest: &mut Furthest,
    tokens: &'a [Token],
) -> Result<(Option<Identifier>, &'a [Token]), NoMemory>
    ensures { GivesRest result (may_name_at tokens.now) }
{
    match name_at(furthest, tokens)? {
        None => Ok((None, tokens)),
        Some((name, rest)) => Ok((Some(name), rest)),
    }
}

/// `. ID`
#[tactic(auto, unfolding(crate::specs::Reading::member_at))]
pub fn member_at<'a>(
    furthest: &mut Furthest,
    tokens: &'a [Token],
) -> Result<Option<(Identifier, &'a [Token])>, NoMemory>
    ensures { GivesValue result (member_at tokens.now) }
{
    match mark_at(furthest, b".", tokens) {
        None => Ok(None),
        Some((_, rest)) => name_at(furthest, rest),
    }
}
