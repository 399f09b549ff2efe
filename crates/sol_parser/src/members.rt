// Members of contracts from tokens.

ghost use Rattle.sol_parse_expr.specs.Reading.{Gives, Within};
ghost use Rattle.sol_parser.specs.Reading.{constructor_at, error_at, event_at, fun_at, modifier_at, var_at};

use crate::elements::{Element, enclosed_at, many_at};
use crate::parts::{INSIDE, body_at, may_params_at, may_returns_at, may_word_at};
use chc_nums::NoMemory;
use sol_parse_expr::{Furthest, mark_at, name_at, type_at, word_at};
use sol_parse_stmt::{block_at, may_initial_at};
use sol_tree::{Constructor, Error, Event, Fun, Member, Modifier, Token, Var};
use sqlite_items::Boxed;

// `type {specifier} ID [= expr] ;`
#[tactic(auto, unfolding(crate::specs::Reading::var_at))]
fn var_at<'a>(
    furthest: &mut Furthest,
    tokens: &'a [Token],
) -> Result<Option<(Var, u32, &'a [Token])>, NoMemory>
    ensures read { Gives result (var_at 127 tokens.now) }
    ensures within { Within 128 result }
{
    let Some((ty, height, rest)) = type_at(furthest, INSIDE, tokens)? else {
        return Ok(None);
    };
    let ty = Boxed::new(furthest.alloc, ty)?;
    let (specifiers, _, rest) = many_at(furthest, rest)?;
    let Some((name, rest)) = name_at(furthest, rest)? else {
        return Ok(None);
    };
    let (initial, initial_height, rest) = may_initial_at(furthest, INSIDE, rest)?;
    let initial = Boxed::new(furthest.alloc, initial)?;
    let Some((_, rest)) = mark_at(furthest, b";", rest) else {
        return Ok(None);
    };
    let ty = ty.into_inner();
    let var = Var {
        at: ty.at(),
        ty,
        specifiers,
        name,
        initial: initial.into_inner(),
    };
    Ok(Some((var, height.max(initial_height) + 1, rest)))
}

// `function ID ( [params] ) {specifier} [returns ( type [ID] )] ( ; | block )`
#[tactic(auto, unfolding(crate::specs::Reading::fun_at))]
fn fun_at<'a>(
    furthest: &mut Furthest,
    tokens: &'a [Token],
) -> Result<Option<(Fun, u32, &'a [Token])>, NoMemory>
    ensures read { Gives result (fun_at 127 tokens.now) }
    ensures within { Within 128 result }
{
    let Some((at, rest)) = word_at(furthest, b"function", tokens) else {
        return Ok(None);
    };
    let Some((name, rest)) = name_at(furthest, rest)? else {
        return Ok(None);
    };
    let Some((params, params_height, rest)) = enclosed_at(furthest, rest)? else {
        return Ok(None);
    };
    let (specifiers, specifiers_height, rest) = many_at(furthest, rest)?;
    let Some((returns, returns_height, rest)) = may_returns_at(furthest, INSIDE, rest)? else {
        return Ok(None);
    };
    let returns = Boxed::new(furthest.alloc, returns)?;
    let Some((body, body_height, rest)) = body_at(furthest, INSIDE, rest)? else {
        return Ok(None);
    };
    let fun = Fun {
        at,
        name,
        params,
        specifiers,
        returns: returns.into_inner(),
        body,
    };
    let height = params_height.max(specifiers_height.max(returns_height.max(body_height)));
    Ok(Some((fun, height + 1, rest)))
}

// `constructor ( [params] ) {specifier} block`
#[tactic(auto, unfolding(crate::specs::Reading::constructor_at))]
fn constructor_at<'a>(
    furthest: &mut Furthest,
    tokens: &'a [Token],
) -> Result<Option<(Constructor, u32, &'a [Token])>, NoMemory>
    ensures read { Gives result (constructor_at 127 tokens.now) }
    ensures within { Within 128 result }
{
    let Some((at, rest)) = word_at(furthest, b"constructor", tokens) else {
        return Ok(None);
    };
    let Some((params, params_height, rest)) = enclosed_at(furthest, rest)? else {
        return Ok(None);
    };
    let (specifiers, specifiers_height, rest) = many_at(furthest, rest)?;
    let Some((body, body_height, rest)) = block_at(furthest, INSIDE, rest)? else {
        return Ok(None);
    };
    let constructor = Constructor {
        at,
        params,
        specifiers,
        body,
    };
    let height = params_height.max(specifiers_height.max(body_height));
    Ok(Some((constructor, height + 1, rest)))
}

// `modifier ID [( [params] )] {specifier} ( block | ; )`
#[tactic(auto, unfolding(crate::specs::Reading::modifier_at))]
fn modifier_at<'a>(
    furthest: &mut Furthest,
    tokens: &'a [Token],
) -> Result<Option<(Modifier, u32, &'a [Token])>, NoMemory>
    ensures read { Gives result (modifier_at 127 tokens.now) }
    ensures within { Within 128 result }
{
    let Some((at, rest)) = word_at(furthest, b"modifier", tokens) else {
        return Ok(None);
    };
    let Some((name, rest)) = name_at(furthest, rest)? else {
        return Ok(None);
    };
    let Some((params, params_height, rest)) = may_params_at(furthest, rest)? else {
        return Ok(None);
    };
    let (specifiers, _, rest) = many_at(furthest, rest)?;
    let Some((body, body_height, rest)) = body_at(furthest, INSIDE, rest)? else {
        return Ok(None);
    };
    let modifier = Modifier {
        at,
        name,
        params,
        specifiers,
        body,
    };
    Ok(Some((modifier, params_height.max(body_height) + 1, rest)))
}

/// `event ID ( [type [indexed] [ID] {, type [indexed] [ID]}] ) [anonymous] ;`
#[tactic(auto, unfolding(crate::specs::Reading::event_at))]
pub fn event_at<'a>(
    furthest: &mut Furthest,
    tokens: &'a [Token],
) -> Result<Option<(Event, u32, &'a [Token])>, NoMemory>
    ensures read { Gives result (event_at 127 tokens.now) }
    ensures within { Within 128 result }
{
    let Some((at, rest)) = word_at(furthest, b"event", tokens) else {
        return Ok(None);
    };
    let Some((name, rest)) = name_at(furthest, rest)? else {
        return Ok(None);
    };
    let Some((params, height, rest)) = enclosed_at(furthest, rest)? else {
        return Ok(None);
    };
    let (anonymous, rest) = may_word_at(furthest, b"anonymous", rest);
    let Some((_, rest)) = mark_at(furthest, b";", rest) else {
        return Ok(None);
    };
    let event = Event {
        at,
        name,
        params,
        anonymous,
    };
    Ok(Some((event, height + 1, rest)))
}

/// `error ID ( [type [ID] {, type [ID]}] ) ;`
#[tactic(auto, unfolding(crate::specs::Reading::error_at))]
pub fn error_at<'a>(
    furthest: &mut Furthest,
    tokens: &'a [Token],
) -> Result<Option<(Error, u32, &'a [Token])>, NoMemory>
    ensures read { Gives result (error_at 127 tokens.now) }
    ensures within { Within 128 result }
{
    let Some((at, rest)) = word_at(furthest, b"error", tokens) else {
        return Ok(None);
    };
    let Some((name, rest)) = name_at(furthest, rest)? else {
        return Ok(None);
    };
    let Some((params, height, rest)) = enclosed_at(furthest, rest)? else {
        return Ok(None);
    };
    let Some((_, rest)) = mark_at(furthest, b";", rest) else {
        return Ok(None);
    };
    Ok(Some((Error { at, name, params }, height + 1, rest)))
}

impl Element for Member {
    ghost use Rattle.sol_parser.specs.Reading.{member_at};

    ghost most = { 128 };

    ghost reader = { member_at 127 };

    #[tactic(auto, unfolding(crate::specs::Reading::member_at))]
    fn read<'a>(
        furthest: &mut Furthest,
        tokens: &'a [Token],
    ) -> Result<Option<(Member, u32, &'a [Token])>, NoMemory> {
        if let Some((fun, height, rest)) = fun_at(furthest, tokens)? {
            return Ok(Some((Member::Fun { at: fun.at, fun }, height, rest)));
        }
        if let Some((constructor, height, rest)) = constructor_at(furthest, tokens)? {
            let at = constructor.at;
            return Ok(Some((Member::Constructor { at, constructor }, height, rest)));
        }
        if let Some((modifier, height, rest)) = modifier_at(furthest, tokens)? {
            let at = modifier.at;
            return Ok(Some((Member::Modifier { at, modifier }, height, rest)));
        }
        if let Some((event, height, rest)) = event_at(furthest, tokens)? {
            return Ok(Some((
                Member::Event {
                    at: event.at,
                    event,
                },
                height,
                rest,
            )));
        }
        if let Some((error, height, rest)) = error_at(furthest, tokens)? {
            return Ok(Some((
                Member::Error {
                    at: error.at,
                    error,
                },
                height,
                rest,
            )));
        }
        match var_at(furthest, tokens)? {
            None => Ok(None),
            Some((var, height, rest)) => Ok(Some((Member::Var { at: var.at, var }, height, rest))),
        }
    }
}
