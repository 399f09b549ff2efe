// Contracts, interfaces and files from tokens.

ghost use Rattle.std.specs.Prelude.{◌≡◌};
ghost use Rattle.sol_parse_expr.specs.Reading.{Gives, Within};
ghost use Rattle.sol_parser.specs.Grammar.{first_at};
ghost use Rattle.sol_parser.specs.Reading.{GivesFile, abstract_at, contract_at, file_at, interface_at, may_bases_at, outline_at};

use crate::elements::{Element, many_at, separated_at};
use crate::members::{error_at, event_at};
use chc_nums::{List, NoMemory};
use sol_parse_expr::{Furthest, mark_at, name_at, word_at};
use sol_tree::{Base, File, Identifier, Member, Token, Unit};

/// What follows the word `contract` or `interface`.
#[derive(Drop)]
pub struct Outline {
    pub name: Identifier,
    pub bases: List<Base>,
    pub members: List<Member>,
}

// `[is base {, base}]`
#[tactic(auto, unfolding(crate::specs::Reading::may_bases_at))]
fn may_bases_at<'a>(
    furthest: &mut Furthest,
    tokens: &'a [Token],
) -> Result<Option<(List<Base>, u32, &'a [Token])>, NoMemory>
    ensures read { Gives result (may_bases_at 128 tokens.now) }
    ensures within { Within 128 result }
{
    match word_at(furthest, b"is", tokens) {
        Some((_, rest)) => separated_at(furthest, rest),
        None => Ok(Some((List::new(furthest.alloc), 0, tokens))),
    }
}

// `ID [bases] { {member} }`
#[tactic(auto, unfolding(crate::specs::Reading::outline_at))]
fn outline_at<'a>(
    furthest: &mut Furthest,
    tokens: &'a [Token],
) -> Result<Option<(Outline, u32, &'a [Token])>, NoMemory>
    ensures read { Gives result (outline_at 127 tokens.now) }
    ensures within { Within 128 result }
{
    let Some((name, rest)) = name_at(furthest, tokens)? else {
        return Ok(None);
    };
    let Some((bases, bases_height, rest)) = may_bases_at(furthest, rest)? else {
        return Ok(None);
    };
    let Some((_, rest)) = mark_at(furthest, b"{", rest) else {
        return Ok(None);
    };
    let (members, members_height, rest) = many_at(furthest, rest)?;
    let Some((_, rest)) = mark_at(furthest, b"}", rest) else {
        return Ok(None);
    };
    let outline = Outline {
        name,
        bases,
        members,
    };
    Ok(Some((outline, bases_height.max(members_height), rest)))
}

// `contract ID [bases] { {member} }`
#[tactic(auto, unfolding(crate::specs::Reading::contract_at))]
fn contract_at<'a>(
    furthest: &mut Furthest,
    tokens: &'a [Token],
) -> Result<Option<(Unit, u32, &'a [Token])>, NoMemory>
    ensures read { Gives result (contract_at 127 tokens.now) }
    ensures within { Within 128 result }
{
    let Some((at, rest)) = word_at(furthest, b"contract", tokens) else {
        return Ok(None);
    };
    let Some((outline, height, rest)) = outline_at(furthest, rest)? else {
        return Ok(None);
    };
    let unit = Unit::Contract {
        at,
        is_abstract: false,
        name: outline.name,
        bases: outline.bases,
        members: outline.members,
    };
    Ok(Some((unit, height, rest)))
}

// `abstract contract ID [bases] { {member} }`
#[tactic(auto, unfolding(crate::specs::Reading::abstract_at))]
fn abstract_at<'a>(
    furthest: &mut Furthest,
    tokens: &'a [Token],
) -> Result<Option<(Unit, u32, &'a [Token])>, NoMemory>
    ensures read { Gives result (abstract_at 127 tokens.now) }
    ensures within { Within 128 result }
{
    let Some((at, rest)) = word_at(furthest, b"abstract", tokens) else {
        return Ok(None);
    };
    let Some((_, rest)) = word_at(furthest, b"contract", rest) else {
        return Ok(None);
    };
    let Some((outline, height, rest)) = outline_at(furthest, rest)? else {
        return Ok(None);
    };
    let unit = Unit::Contract {
        at,
        is_abstract: true,
        name: outline.name,
        bases: outline.bases,
        members: outline.members,
    };
    Ok(Some((unit, height, rest)))
}

// `interface ID [bases] { {member} }`
#[tactic(auto, unfolding(crate::specs::Reading::interface_at))]
fn interface_at<'a>(
    furthest: &mut Furthest,
    tokens: &'a [Token],
) -> Result<Option<(Unit, u32, &'a [Token])>, NoMemory>
    ensures read { Gives result (interface_at 127 tokens.now) }
    ensures within { Within 128 result }
{
    let Some((at, rest)) = word_at(furthest, b"interface", tokens) else {
        return Ok(None);
    };
    let Some((outline, height, rest)) = outline_at(furthest, rest)? else {
        return Ok(None);
    };
    let unit = Unit::Interface {
        at,
        name: outline.name,
        bases: outline.bases,
        members: outline.members,
    };
    Ok(Some((unit, height, rest)))
}

impl Element for Unit {
    ghost use Rattle.sol_parser.specs.Reading.{unit_at};

    ghost most = { 128 };

    ghost reader = { unit_at 127 };

    #[tactic(auto, unfolding(crate::specs::Reading::unit_at))]
    fn read<'a>(
        furthest: &mut Furthest,
        tokens: &'a [Token],
    ) -> Result<Option<(Unit, u32, &'a [Token])>, NoMemory> {
        if let Some(found) = contract_at(furthest, tokens)? {
            return Ok(Some(found));
        }
        if let Some(found) = abstract_at(furthest, tokens)? {
            return Ok(Some(found));
        }
        if let Some(found) = interface_at(furthest, tokens)? {
            return Ok(Some(found));
        }
        if let Some((event, height, rest)) = event_at(furthest, tokens)? {
            return Ok(Some((
                Unit::Event {
                    at: event.at,
                    event,
                },
                height,
                rest,
            )));
        }
        match error_at(furthest, tokens)? {
            None => Ok(None),
            Some((error, height, rest)) => {
                Ok(Some((
                    Unit::Error {
                        at: error.at,
                        error,
                    },
                    height,
                    rest,
                )))
            }
        }
    }
}

fn first_at(tokens: &[Token]) -> u32
    ensures { result ≡ first_at tokens.now }
{
    match tokens {
        [] => 0,
        [first, ..] => first.at,
    }
}

/// The file that all tokens spell.
#[tactic(auto, unfolding(crate::specs::Reading::file_at))]
pub fn file_at(furthest: &mut Furthest, tokens: &[Token]) -> Result<Option<File>, NoMemory>
    ensures { GivesFile result (file_at 127 tokens.now) }
{
    let (units, _, rest) = many_at(furthest, tokens)?;
    match rest {
        [] => Ok(Some(File {
            at: first_at(tokens),
            units,
        })),
        [_, ..] => Ok(None),
    }
}
