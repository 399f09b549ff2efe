// Parts of members from tokens. `levels_left` is how many levels the types, expressions and blocks in them may have.

ghost use Rattle.std.specs.Prelude.{◌≡◌, Some};
ghost use Rattle.sol_parse_expr.specs.Reading.{Gives, Reads, Within};
ghost use Rattle.sol_parser.specs.Reading.{base_at, body_at, event_param_at, may_params_at, may_returns_at, may_word_at, named_at, names_at, override_at, param_at};

use crate::elements::{Element, enclosed_at, separated_at};
use chc_nums::{List, MAX_LEVELS, NoMemory};
use sol_parse_expr::{Furthest, mark_at, may_name_at, name_at, type_at, word_at};
use sol_parse_stmt::{arguments_at, block_at};
use sol_tree::{Base, Block, EventParam, Identifier, Override, Param, Token};
use sqlite_items::Boxed;

/// How many levels what is inside a member may have.
pub const INSIDE: u8 = MAX_LEVELS - 1;

/// Whether a word stands here.
#[tactic(auto, unfolding(crate::specs::Reading::may_word_at))]
pub fn may_word_at<'a>(
    furthest: &mut Furthest,
    word: &[u8],
    tokens: &'a [Token],
) -> (bool, &'a [Token])
    ensures { may_word_at word.now tokens.now ≡ Some (result.0, result.1.now) }
{
    match word_at(furthest, word, tokens) {
        Some((_, rest)) => (true, rest),
        None => (false, tokens),
    }
}

impl Element for Identifier {
    ghost use Rattle.sol_parser.specs.Reading.{named_at};

    ghost most = { 0 };

    ghost reader = { named_at };

    #[tactic(auto, unfolding(crate::specs::Reading::named_at))]
    fn read<'a>(
        furthest: &mut Furthest,
        tokens: &'a [Token],
    ) -> Result<Option<(Identifier, u32, &'a [Token])>, NoMemory> {
        match name_at(furthest, tokens)? {
            None => Ok(None),
            Some((name, rest)) => Ok(Some((name, 0, rest))),
        }
    }
}

/// `ID [( [args] )]`
#[tactic(auto, unfolding(crate::specs::Reading::base_at))]
pub fn base_at<'a>(
    furthest: &mut Furthest,
    levels_left: u8,
    tokens: &'a [Token],
) -> Result<Option<(Base, u32, &'a [Token])>, NoMemory>
    ensures read { Gives result (base_at levels_left tokens.now) }
    ensures within { Within levels_left result }
{
    let Some((name, rest)) = name_at(furthest, tokens)? else {
        return Ok(None);
    };
    let at = name.at;
    match arguments_at(furthest, levels_left, rest)? {
        Some((arguments, height, rest)) => {
            let base = Base {
                at,
                name,
                arguments: Some(arguments),
            };
            Ok(Some((base, height, rest)))
        }
        None => {
            let base = Base {
                at,
                name,
                arguments: None,
            };
            Ok(Some((base, 0, rest)))
        }
    }
}

impl Element for Base {
    ghost use Rattle.sol_parser.specs.Reading.{base_at};

    ghost most = { 128 };

    ghost reader = { base_at 128 };

    fn read<'a>(
        furthest: &mut Furthest,
        tokens: &'a [Token],
    ) -> Result<Option<(Base, u32, &'a [Token])>, NoMemory> {
        base_at(furthest, MAX_LEVELS, tokens)
    }
}

// `ID {, ID} )`
#[tactic(auto, unfolding(crate::specs::Reading::names_at))]
fn names_at<'a>(
    furthest: &mut Furthest,
    tokens: &'a [Token],
) -> Result<Option<(List<Identifier>, u32, &'a [Token])>, NoMemory>
    ensures { Gives result (names_at tokens.now) }
{
    let Some((names, height, rest)) = separated_at(furthest, tokens)? else {
        return Ok(None);
    };
    let Some((_, rest)) = mark_at(furthest, b")", rest) else {
        return Ok(None);
    };
    Ok(Some((names, height, rest)))
}

/// `override [( ID {, ID} )]`
#[tactic(auto, unfolding(crate::specs::Reading::override_at))]
pub fn override_at<'a>(
    furthest: &mut Furthest,
    tokens: &'a [Token],
) -> Result<Option<(Override, u32, &'a [Token])>, NoMemory>
    ensures read { Gives result (override_at tokens.now) }
    ensures within { Within 0 result }
{
    let Some((at, rest)) = word_at(furthest, b"override", tokens) else {
        return Ok(None);
    };
    let Some((_, listed)) = mark_at(furthest, b"(", rest) else {
        let names = List::new(furthest.alloc);
        return Ok(Some((Override { at, names }, 0, rest)));
    };
    let Some((names, _, rest)) = names_at(furthest, listed)? else {
        return Ok(None);
    };
    Ok(Some((Override { at, names }, 0, rest)))
}

/// `type [ID]`
#[tactic(auto, unfolding(crate::specs::Reading::param_at))]
pub fn param_at<'a>(
    furthest: &mut Furthest,
    levels_left: u8,
    tokens: &'a [Token],
) -> Result<Option<(Param, u32, &'a [Token])>, NoMemory>
    ensures read { Gives result (param_at levels_left tokens.now) }
    ensures within { Within levels_left result }
{
    let Some((ty, height, rest)) = type_at(furthest, levels_left, tokens)? else {
        return Ok(None);
    };
    let ty = Boxed::new(furthest.alloc, ty)?;
    let (name, rest) = may_name_at(furthest, rest)?;
    let ty = ty.into_inner();
    let at = ty.at();
    Ok(Some((Param { at, ty, name }, height, rest)))
}

impl Element for Param {
    ghost use Rattle.sol_parser.specs.Reading.{param_at};

    ghost most = { 127 };

    ghost reader = { param_at 127 };

    fn read<'a>(
        furthest: &mut Furthest,
        tokens: &'a [Token],
    ) -> Result<Option<(Param, u32, &'a [Token])>, NoMemory> {
        param_at(furthest, INSIDE, tokens)
    }
}

/// `type [indexed] [ID]`
#[tactic(auto, unfolding(crate::specs::Reading::event_param_at))]
pub fn event_param_at<'a>(
    furthest: &mut Furthest,
    levels_left: u8,
    tokens: &'a [Token],
) -> Result<Option<(EventParam, u32, &'a [Token])>, NoMemory>
    ensures read { Gives result (event_param_at levels_left tokens.now) }
    ensures within { Within levels_left result }
{
    let Some((ty, height, rest)) = type_at(furthest, levels_left, tokens)? else {
        return Ok(None);
    };
    let ty = Boxed::new(furthest.alloc, ty)?;
    let (indexed, rest) = may_word_at(furthest, b"indexed", rest);
    let (name, rest) = may_name_at(furthest, rest)?;
    let ty = ty.into_inner();
    let param = EventParam {
        at: ty.at(),
        ty,
        indexed,
        name,
    };
    Ok(Some((param, height, rest)))
}

impl Element for EventParam {
    ghost use Rattle.sol_parser.specs.Reading.{event_param_at};

    ghost most = { 127 };

    ghost reader = { event_param_at 127 };

    fn read<'a>(
        furthest: &mut Furthest,
        tokens: &'a [Token],
    ) -> Result<Option<(EventParam, u32, &'a [Token])>, NoMemory> {
        event_param_at(furthest, INSIDE, tokens)
    }
}

/// `[returns ( type [ID] )]`
#[tactic(auto, unfolding(crate::specs::Reading::may_returns_at))]
pub fn may_returns_at<'a>(
    furthest: &mut Furthest,
    levels_left: u8,
    tokens: &'a [Token],
) -> Result<Option<(Option<Param>, u32, &'a [Token])>, NoMemory>
    ensures read { Gives result (may_returns_at levels_left tokens.now) }
    ensures within { Within levels_left result }
{
    let Some((_, rest)) = word_at(furthest, b"returns", tokens) else {
        return Ok(Some((None, 0, tokens)));
    };
    let Some((_, rest)) = mark_at(furthest, b"(", rest) else {
        return Ok(None);
    };
    let Some((param, height, rest)) = param_at(furthest, levels_left, rest)? else {
        return Ok(None);
    };
    let param = Boxed::new(furthest.alloc, param)?;
    let Some((_, rest)) = mark_at(furthest, b")", rest) else {
        return Ok(None);
    };
    Ok(Some((Some(param.into_inner()), height, rest)))
}

/// `;`, or a block
#[tactic(auto, unfolding(crate::specs::Reading::body_at))]
pub fn body_at<'a>(
    furthest: &mut Furthest,
    levels_left: u8,
    tokens: &'a [Token],
) -> Result<Option<(Option<Block>, u32, &'a [Token])>, NoMemory>
    ensures read { Gives result (body_at levels_left tokens.now) }
    ensures within { Within levels_left result }
{
    if let Some((_, rest)) = mark_at(furthest, b";", tokens) {
        return Ok(Some((None, 0, rest)));
    }
    match block_at(furthest, levels_left, tokens)? {
        None => Ok(None),
        Some((block, height, rest)) => Ok(Some((Some(block), height, rest))),
    }
}

/// `[( [params] )]`, of a member
#[tactic(auto, unfolding(crate::specs::Reading::may_params_at))]
pub fn may_params_at<'a>(
    furthest: &mut Furthest,
    tokens: &'a [Token],
) -> Result<Option<(List<Param>, u32, &'a [Token])>, NoMemory>
    ensures read { Gives result (may_params_at 127 tokens.now) }
    ensures within { Within 127 result }
{
    match enclosed_at(furthest, tokens)? {
        Some(found) => Ok(Some(found)),
        None => Ok(Some((List::new(furthest.alloc), 0, tokens))),
    }
}
