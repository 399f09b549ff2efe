// Types from tokens. What is read comes with its levels and the tokens after it.

ghost use Rattle.std.specs.Prelude.{◌≡◌, ◌≤◌, ◌+◌, IfOk, length};
ghost use Rattle.sol_parse_expr.specs.Reading.{Gives, GivesOne, array_of, brackets_at, entry_at, first_type_at, grow, mapping_at, ReadsNothing, Within, WithinOne, type_at};
ghost use Rattle.sol_tree.specs.Places.{type_place_of};
ghost use Rattle.sol_tree.specs.declared.types.Type as types;

use crate::furthest::Furthest;
use crate::steps::{elementary_at, mark_at, may_name_at, name_at, word_at};
use chc_nums::NoMemory;
use sol_tree::{Identifier, Token, Type};
use sqlite_items::Boxed;
use std::alloc::Global;

// The key or the value of a mapping, `type [ID]`.
#[derive(Drop)]
pub struct Entry {
    pub ty: Boxed<Type>,
    pub name: Option<Identifier>,
}

#[cycle(types)]
#[tactic(auto, unfolding(crate::specs::Reading::entry_at))]
fn entry_at<'a>(
    furthest: &mut Furthest,
    levels_left: u8,
    tokens: &'a [Token],
) -> Result<Option<(Entry, u32, &'a [Token])>, NoMemory>
    ensures read { Gives result (entry_at (type_at levels_left) tokens.now) }
    ensures within { Within levels_left result }
{
    let Some((ty, height, rest)) = type_at(furthest, levels_left, tokens)? else {
        return Ok(None);
    };
    let ty = Boxed::new(furthest.alloc, ty)?;
    let (name, rest) = may_name_at(furthest, rest)?;
    Ok(Some((Entry { ty, name }, height, rest)))
}

fn mapping_of(at: u32, key: Entry, value: Entry) -> Type
    ensures { result ≡ types.Mapping at key.ty key.name value.ty value.name }
{
    Type::Mapping {
        at,
        key: key.ty,
        key_name: key.name,
        value: value.ty,
        value_name: value.name,
    }
}

#[cycle(types)]
#[tactic(auto, unfolding(crate::specs::Reading::mapping_at))]
fn mapping_at<'a>(
    furthest: &mut Furthest,
    levels_left: u8,
    tokens: &'a [Token],
) -> Result<Option<(Type, u32, &'a [Token])>, NoMemory>
    ensures read { Gives result (mapping_at (type_at levels_left) tokens.now) }
    ensures within { Within (levels_left + 1) result }
{
    let Some((at, rest)) = word_at(furthest, b"mapping", tokens) else {
        return Ok(None);
    };
    let Some((_, rest)) = mark_at(furthest, b"(", rest) else {
        return Ok(None);
    };
    let Some((key, key_height, rest)) = entry_at(furthest, levels_left, rest)? else {
        return Ok(None);
    };
    let Some((_, rest)) = mark_at(furthest, b"=>", rest) else {
        return Ok(None);
    };
    let Some((value, value_height, rest)) = entry_at(furthest, levels_left, rest)? else {
        return Ok(None);
    };
    let Some((_, rest)) = mark_at(furthest, b")", rest) else {
        return Ok(None);
    };
    let ty = mapping_of(at, key, value);
    Ok(Some((ty, key_height.max(value_height) + 1, rest)))
}

#[cycle(types)]
#[tactic(auto, unfolding(crate::specs::Reading::first_type_at))]
fn first_type_at<'a>(
    furthest: &mut Furthest,
    levels_left: u8,
    tokens: &'a [Token],
) -> Result<Option<(Type, u32, &'a [Token])>, NoMemory>
    ensures read { Gives result (first_type_at (type_at levels_left) tokens.now) }
    ensures within { Within (levels_left + 1) result }
{
    if let Some(((at, ty), rest)) = elementary_at(furthest, tokens) {
        return Ok(Some((Type::Elementary { at, ty }, 1, rest)));
    }
    if let Some((name, rest)) = name_at(furthest, tokens)? {
        let ty = Type::Named {
            at: name.at,
            name: name.name,
        };
        return Ok(Some((ty, 1, rest)));
    }
    mapping_at(furthest, levels_left, tokens)
}

#[tactic(auto, unfolding(crate::specs::Reading::brackets_at))]
fn brackets_at<'a>(furthest: &mut Furthest, tokens: &'a [Token]) -> Option<&'a [Token]>
    ensures { ReadsNothing result (brackets_at tokens.now) }
{
    let (_, rest) = mark_at(furthest, b"[", tokens)?;
    let (_, rest) = mark_at(furthest, b"]", rest)?;
    Some(rest)
}

fn array_of(alloc: Global, element: Type) -> Result<Type, NoMemory>
    ensures { IfOk result (λ t. t ≡ types.Array (type_place_of element) element) }
{
    let at = element.at();
    Ok(Type::Array {
        at,
        element: Boxed::new(alloc, element)?,
    })
}

// Arrays of what was read.
#[tactic(auto, using(crate::proofs::Loops::array_loops))]
fn arrays_at<'a>(
    furthest: &mut Furthest,
    levels_left: u8,
    first: Type,
    first_height: u32,
    tokens: &'a [Token],
) -> Result<(Type, u32, &'a [Token]), NoMemory>
    requires low { first_height ≤ levels_left + 1 }
    ensures read { GivesOne result (grow array_of levels_left brackets_at (length tokens.now) first first_height tokens.now) }
    ensures within { WithinOne (levels_left + 1) result }
{
    let mut so_far = first;
    let mut height = first_height;
    let mut rest = tokens;
    for _turn in 0..tokens.len() {
        if u32::from(levels_left) < height {
            return Ok((so_far, height, rest));
        }
        let Some(after) = brackets_at(furthest, rest) else {
            return Ok((so_far, height, rest));
        };
        so_far = array_of(furthest.alloc, so_far)?;
        height += 1;
        rest = after;
    }
    Ok((so_far, height, rest))
}

/// A type of at most so many levels, the longest that stands here.
#[cycle(types)]
#[tactic(auto, using(crate::proofs::Loops::type_levels))]
pub fn type_at<'a>(
    furthest: &mut Furthest,
    levels_left: u8,
    tokens: &'a [Token],
) -> Result<Option<(Type, u32, &'a [Token])>, NoMemory>
    ensures read { Gives result (type_at levels_left tokens.now) }
    ensures within { Within levels_left result }
{
    if levels_left == 0 {
        return Ok(None);
    }
    let Some((first, height, rest)) = first_type_at(furthest, levels_left - 1, tokens)? else {
        return Ok(None);
    };
    Ok(Some(arrays_at(furthest, levels_left - 1, first, height, rest)?))
}
