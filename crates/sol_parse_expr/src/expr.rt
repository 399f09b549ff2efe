// Expressions from tokens. What is read comes with its levels and the tokens after it. `inner` is how many levels the
// types and expressions inside it may have.

ghost use Rattle.std.specs.Prelude.{◌≡◌, ◌≤◌, ◌+◌, ◌-◌, codes, length};
ghost use Rattle.sol_parse_expr.specs.Reading.{Gives, GivesOne, ReadsTree, Within, WithinOne, WithinTree, all_at, argument_at, arguments_at, atom_at, branches_at, call_at, chosen, closed_at, conversion_at, expr_at, grow, index_at, joined, ladder, loose, member_of_word_at, member_suffix_at, message_of, more_at, negation_at, operand_at, opposite_at, parenthesised_at, postfix_at, prefix_at, primary_at, scaled_at, suffix_at, suffixed, super_of, type_member_at, word_tree_at};
ghost use Rattle.chc_nums.specs.declared.limits.TheConstants.{MAX_FILE_BYTES, MAX_LEVELS};
ghost use Rattle.sol_parse_expr.specs.Longest.{Finds};

use crate::fault::ParseFault;
use crate::furthest::Furthest;
use crate::nodes::{Branches, Operand, Suffix, chosen, joined, suffixed};
use crate::steps::{
    elementary_at, mark_at, may_unit_at, member_at, name_at, number_at, operator_at, word_at,
};
use crate::types::type_at;
use chc_nums::{MAX_LEVELS, NoMemory};
use sol_tree::{ExprTree, Token};
use sqlite_items::{Boxed, Items};
use std::alloc::Global;

// `NUM [unit]`
#[tactic(auto, unfolding(crate::specs::Reading::scaled_at))]
fn scaled_at<'a>(
    furthest: &mut Furthest,
    tokens: &'a [Token],
) -> Option<(ExprTree, u32, &'a [Token])>
    ensures read { ReadsTree result (scaled_at tokens.now) }
    ensures within { WithinTree 1 result }
{
    let ((at, (value, hex)), rest) = number_at(furthest, tokens)?;
    let (unit, rest) = may_unit_at(furthest, rest);
    let tree = ExprTree::Number {
        at,
        value,
        hex,
        unit,
    };
    Some((tree, 1, rest))
}

// `true`, `false` or a name.
#[tactic(auto, unfolding(crate::specs::Reading::word_tree_at))]
fn word_tree_at<'a>(
    furthest: &mut Furthest,
    tokens: &'a [Token],
) -> Result<Option<(ExprTree, u32, &'a [Token])>, NoMemory>
    ensures read { Gives result (word_tree_at tokens.now) }
    ensures within { Within 1 result }
{
    if let Some((at, rest)) = word_at(furthest, b"true", tokens) {
        return Ok(Some((ExprTree::True { at }, 1, rest)));
    }
    if let Some((at, rest)) = word_at(furthest, b"false", tokens) {
        return Ok(Some((ExprTree::False { at }, 1, rest)));
    }
    let Some((name, rest)) = name_at(furthest, tokens)? else {
        return Ok(None);
    };
    let tree = ExprTree::Named {
        at: name.at,
        name: name.name,
    };
    Ok(Some((tree, 1, rest)))
}

// `msg . ID`
#[tactic(auto, unfolding(crate::specs::Reading::member_of_word_at))]
fn message_at<'a>(
    furthest: &mut Furthest,
    tokens: &'a [Token],
) -> Result<Option<(ExprTree, u32, &'a [Token])>, NoMemory>
    ensures read { Gives result (member_of_word_at (codes "msg") message_of tokens.now) }
    ensures within { Within 1 result }
{
    let Some((at, rest)) = word_at(furthest, b"msg", tokens) else {
        return Ok(None);
    };
    let Some((member, rest)) = member_at(furthest, rest)? else {
        return Ok(None);
    };
    Ok(Some((ExprTree::MessageMember { at, member }, 1, rest)))
}

// `super . ID`
#[tactic(auto, unfolding(crate::specs::Reading::member_of_word_at))]
fn super_at<'a>(
    furthest: &mut Furthest,
    tokens: &'a [Token],
) -> Result<Option<(ExprTree, u32, &'a [Token])>, NoMemory>
    ensures read { Gives result (member_of_word_at (codes "super") super_of tokens.now) }
    ensures within { Within 1 result }
{
    let Some((at, rest)) = word_at(furthest, b"super", tokens) else {
        return Ok(None);
    };
    let Some((member, rest)) = member_at(furthest, rest)? else {
        return Ok(None);
    };
    Ok(Some((ExprTree::SuperMember { at, member }, 1, rest)))
}

// What has no expression and no type inside.
#[tactic(auto, unfolding(crate::specs::Reading::atom_at))]
fn atom_at<'a>(
    furthest: &mut Furthest,
    tokens: &'a [Token],
) -> Result<Option<(ExprTree, u32, &'a [Token])>, NoMemory>
    ensures read { Gives result (atom_at tokens.now) }
    ensures within { Within 1 result }
{
    if let Some(found) = scaled_at(furthest, tokens) {
        return Ok(Some(found));
    }
    if let Some(found) = word_tree_at(furthest, tokens)? {
        return Ok(Some(found));
    }
    if let Some(found) = message_at(furthest, tokens)? {
        return Ok(Some(found));
    }
    super_at(furthest, tokens)
}

// An expression, and then a mark.
#[cycle(expressions)]
#[tactic(auto, unfolding(crate::specs::Reading::closed_at))]
fn closed_at<'a>(
    furthest: &mut Furthest,
    mark: &[u8],
    inner: u8,
    tokens: &'a [Token],
) -> Result<Option<(Boxed<ExprTree>, u32, &'a [Token])>, NoMemory>
    ensures read { Gives result (closed_at mark.now (expr_at inner) tokens.now) }
    ensures within { Within inner result }
{
    let Some((tree, height, rest)) = expr_at(furthest, inner, 10, tokens)? else {
        return Ok(None);
    };
    let tree = Boxed::new(furthest.alloc, tree)?;
    let Some((_, rest)) = mark_at(furthest, mark, rest) else {
        return Ok(None);
    };
    Ok(Some((tree, height, rest)))
}

// `( expr )`
#[cycle(expressions)]
#[tactic(auto, unfolding(crate::specs::Reading::parenthesised_at))]
fn parenthesised_at<'a>(
    furthest: &mut Furthest,
    inner: u8,
    tokens: &'a [Token],
) -> Result<Option<(ExprTree, u32, &'a [Token])>, NoMemory>
    ensures read { Gives result (parenthesised_at (expr_at inner) tokens.now) }
    ensures within { Within (inner + 1) result }
{
    let Some((at, rest)) = mark_at(furthest, b"(", tokens) else {
        return Ok(None);
    };
    let Some((inner, height, rest)) = closed_at(furthest, b")", inner, rest)? else {
        return Ok(None);
    };
    Ok(Some((ExprTree::Parenthesised { at, inner }, height + 1, rest)))
}

// `elem ( expr )`
#[cycle(expressions)]
#[tactic(auto, unfolding(crate::specs::Reading::conversion_at))]
fn conversion_at<'a>(
    furthest: &mut Furthest,
    inner: u8,
    tokens: &'a [Token],
) -> Result<Option<(ExprTree, u32, &'a [Token])>, NoMemory>
    ensures read { Gives result (conversion_at (expr_at inner) tokens.now) }
    ensures within { Within (inner + 1) result }
{
    let Some(((at, ty), rest)) = elementary_at(furthest, tokens) else {
        return Ok(None);
    };
    let Some((open_at, rest)) = mark_at(furthest, b"(", rest) else {
        return Ok(None);
    };
    let Some((value, height, rest)) = closed_at(furthest, b")", inner, rest)? else {
        return Ok(None);
    };
    let tree = ExprTree::Conversion {
        at,
        ty,
        open_at,
        value,
    };
    Ok(Some((tree, height + 1, rest)))
}

// `type ( type ) . ID`
#[tactic(auto, unfolding(crate::specs::Reading::type_member_at))]
fn type_member_at<'a>(
    furthest: &mut Furthest,
    inner: u8,
    tokens: &'a [Token],
) -> Result<Option<(ExprTree, u32, &'a [Token])>, NoMemory>
    ensures read { Gives result (type_member_at inner tokens.now) }
    ensures within { Within (inner + 1) result }
{
    let Some((at, rest)) = word_at(furthest, b"type", tokens) else {
        return Ok(None);
    };
    let Some((_, rest)) = mark_at(furthest, b"(", rest) else {
        return Ok(None);
    };
    let Some((ty, height, rest)) = type_at(furthest, inner, rest)? else {
        return Ok(None);
    };
    let ty = Boxed::new(furthest.alloc, ty)?;
    let Some((_, rest)) = mark_at(furthest, b")", rest) else {
        return Ok(None);
    };
    let Some((member, rest)) = member_at(furthest, rest)? else {
        return Ok(None);
    };
    let tree = ExprTree::TypeMember {
        at,
        ty: ty.into_inner(),
        member,
    };
    Ok(Some((tree, height + 1, rest)))
}

#[cycle(expressions)]
#[tactic(auto, unfolding(crate::specs::Reading::primary_at))]
fn primary_at<'a>(
    furthest: &mut Furthest,
    inner: u8,
    tokens: &'a [Token],
) -> Result<Option<(ExprTree, u32, &'a [Token])>, NoMemory>
    ensures read { Gives result (primary_at inner (expr_at inner) tokens.now) }
    ensures within { Within (inner + 1) result }
{
    if let Some(found) = atom_at(furthest, tokens)? {
        return Ok(Some(found));
    }
    if let Some(found) = parenthesised_at(furthest, inner, tokens)? {
        return Ok(Some(found));
    }
    if let Some(found) = conversion_at(furthest, inner, tokens)? {
        return Ok(Some(found));
    }
    type_member_at(furthest, inner, tokens)
}

// `, expr`
#[cycle(expressions)]
#[tactic(auto, unfolding(crate::specs::Reading::argument_at))]
fn argument_at<'a>(
    furthest: &mut Furthest,
    inner: u8,
    tokens: &'a [Token],
) -> Result<Option<(ExprTree, u32, &'a [Token])>, NoMemory>
    ensures read { Gives result (argument_at (expr_at inner) tokens.now) }
    ensures within { Within inner result }
{
    let Some((_, rest)) = mark_at(furthest, b",", tokens) else {
        return Ok(None);
    };
    expr_at(furthest, inner, 10, rest)
}

// The arguments after the first.
#[cycle(expressions)]
#[tactic(auto, using(crate::proofs::Loops::argument_loops))]
fn arguments_at<'a>(
    furthest: &mut Furthest,
    inner: u8,
    first: Items<ExprTree>,
    first_height: u32,
    tokens: &'a [Token],
) -> Result<(Items<ExprTree>, u32, &'a [Token]), NoMemory>
    requires low { first_height ≤ inner }
    ensures read { GivesOne result (arguments_at (expr_at inner) (length tokens.now) first first_height tokens.now) }
    ensures within { WithinOne inner result }
{
    let mut so_far = first;
    let mut height = first_height;
    let mut rest = tokens;
    for _turn in 0..tokens.len() {
        let Some((tree, tree_height, after)) = argument_at(furthest, inner, rest)? else {
            return Ok((so_far, height, rest));
        };
        so_far.push(tree)?;
        height = height.max(tree_height);
        rest = after;
    }
    Ok((so_far, height, rest))
}

/// `[args]`: expressions with commas between them, or none.
#[cycle(expressions)]
#[tactic(auto, unfolding(crate::specs::Reading::all_at))]
pub fn all_at<'a>(
    furthest: &mut Furthest,
    inner: u8,
    tokens: &'a [Token],
) -> Result<(Items<ExprTree>, u32, &'a [Token]), NoMemory>
    ensures read { GivesOne result (all_at (expr_at inner) tokens.now) }
    ensures within { WithinOne inner result }
{
    let mut trees = Items::new(furthest.alloc);
    let Some((first, height, rest)) = expr_at(furthest, inner, 10, tokens)? else {
        return Ok((trees, 0, tokens));
    };
    trees.push(first)?;
    arguments_at(furthest, inner, trees, height, rest)
}

// `[ expr ]`
#[cycle(expressions)]
#[tactic(auto, unfolding(crate::specs::Reading::index_at))]
fn index_at<'a>(
    furthest: &mut Furthest,
    inner: u8,
    tokens: &'a [Token],
) -> Result<Option<(Suffix, u32, &'a [Token])>, NoMemory>
    ensures read { Gives result (index_at (expr_at inner) tokens.now) }
    ensures within { Within inner result }
{
    let Some((at, rest)) = mark_at(furthest, b"[", tokens) else {
        return Ok(None);
    };
    let Some((index, height, rest)) = closed_at(furthest, b"]", inner, rest)? else {
        return Ok(None);
    };
    Ok(Some((Suffix::Index { at, index }, height, rest)))
}

// `. ID`
#[tactic(auto, unfolding(crate::specs::Reading::member_suffix_at))]
fn member_suffix_at<'a>(
    furthest: &mut Furthest,
    tokens: &'a [Token],
) -> Result<Option<(Suffix, u32, &'a [Token])>, NoMemory>
    ensures read { Gives result (member_suffix_at tokens.now) }
    ensures within { Within 0 result }
{
    let Some((member, rest)) = member_at(furthest, tokens)? else {
        return Ok(None);
    };
    Ok(Some((Suffix::Member { member }, 0, rest)))
}

// `( [args] )`
#[cycle(expressions)]
#[tactic(auto, unfolding(crate::specs::Reading::call_at))]
fn call_at<'a>(
    furthest: &mut Furthest,
    inner: u8,
    tokens: &'a [Token],
) -> Result<Option<(Suffix, u32, &'a [Token])>, NoMemory>
    ensures read { Gives result (call_at (expr_at inner) tokens.now) }
    ensures within { Within inner result }
{
    let Some((at, rest)) = mark_at(furthest, b"(", tokens) else {
        return Ok(None);
    };
    let (arguments, height, rest) = all_at(furthest, inner, rest)?;
    let Some((_, rest)) = mark_at(furthest, b")", rest) else {
        return Ok(None);
    };
    Ok(Some((Suffix::Call { at, arguments }, height, rest)))
}

#[cycle(expressions)]
#[tactic(auto, unfolding(crate::specs::Reading::suffix_at))]
fn suffix_at<'a>(
    furthest: &mut Furthest,
    inner: u8,
    tokens: &'a [Token],
) -> Result<Option<(Suffix, u32, &'a [Token])>, NoMemory>
    ensures read { Gives result (suffix_at (expr_at inner) tokens.now) }
    ensures within { Within inner result }
{
    if let Some(found) = index_at(furthest, inner, tokens)? {
        return Ok(Some(found));
    }
    if let Some(found) = member_suffix_at(furthest, tokens)? {
        return Ok(Some(found));
    }
    call_at(furthest, inner, tokens)
}

// Indices, members and calls of what was read.
#[cycle(expressions)]
#[tactic(auto, using(crate::proofs::Loops::loops))]
fn suffixes_at<'a>(
    furthest: &mut Furthest,
    inner: u8,
    first: ExprTree,
    first_height: u32,
    tokens: &'a [Token],
) -> Result<(ExprTree, u32, &'a [Token]), NoMemory>
    requires low { first_height ≤ inner + 1 }
    ensures read { GivesOne result (grow suffixed inner (suffix_at (expr_at inner)) (length tokens.now) first first_height tokens.now) }
    ensures within { WithinOne (inner + 1) result }
{
    let mut so_far = first;
    let mut height = first_height;
    let mut rest = tokens;
    for _turn in 0..tokens.len() {
        if u32::from(inner) < height {
            return Ok((so_far, height, rest));
        }
        let Some((suffix, suffix_height, after)) = suffix_at(furthest, inner, rest)? else {
            return Ok((so_far, height, rest));
        };
        so_far = suffixed(furthest.alloc, so_far, suffix)?;
        height = height.max(suffix_height) + 1;
        rest = after;
    }
    Ok((so_far, height, rest))
}

// Precedence 1.
#[cycle(expressions)]
#[tactic(auto, unfolding(crate::specs::Reading::postfix_at))]
fn postfix_at<'a>(
    furthest: &mut Furthest,
    inner: u8,
    tokens: &'a [Token],
) -> Result<Option<(ExprTree, u32, &'a [Token])>, NoMemory>
    ensures read { Gives result (postfix_at inner (expr_at inner) tokens.now) }
    ensures within { Within (inner + 1) result }
{
    let Some((first, height, rest)) = primary_at(furthest, inner, tokens)? else {
        return Ok(None);
    };
    Ok(Some(suffixes_at(furthest, inner, first, height, rest)?))
}

// `! operand`
#[cycle(expressions)]
fn opposite_at<'a>(
    furthest: &mut Furthest,
    inner: u8,
    at: u32,
    tokens: &'a [Token],
) -> Result<Option<(ExprTree, u32, &'a [Token])>, NoMemory>
    ensures read { Gives result (opposite_at (expr_at inner) at tokens.now) }
    ensures within { Within (inner + 1) result }
{
    let Some((operand, height, rest)) = expr_at(furthest, inner, 2, tokens)? else {
        return Ok(None);
    };
    let tree = ExprTree::Not {
        at,
        operand: Boxed::new(furthest.alloc, operand)?,
    };
    Ok(Some((tree, height + 1, rest)))
}

// `- operand`
#[cycle(expressions)]
fn negation_at<'a>(
    furthest: &mut Furthest,
    inner: u8,
    at: u32,
    tokens: &'a [Token],
) -> Result<Option<(ExprTree, u32, &'a [Token])>, NoMemory>
    ensures read { Gives result (negation_at (expr_at inner) at tokens.now) }
    ensures within { Within (inner + 1) result }
{
    let Some((operand, height, rest)) = expr_at(furthest, inner, 2, tokens)? else {
        return Ok(None);
    };
    let tree = ExprTree::Negation {
        at,
        operand: Boxed::new(furthest.alloc, operand)?,
    };
    Ok(Some((tree, height + 1, rest)))
}

// Precedence 2.
#[cycle(expressions)]
#[tactic(auto, unfolding(crate::specs::Reading::prefix_at))]
fn prefix_at<'a>(
    furthest: &mut Furthest,
    inner: u8,
    tokens: &'a [Token],
) -> Result<Option<(ExprTree, u32, &'a [Token])>, NoMemory>
    ensures read { Gives result (prefix_at (expr_at inner) (postfix_at inner (expr_at inner)) tokens.now) }
    ensures within { Within (inner + 1) result }
{
    if let Some((at, rest)) = mark_at(furthest, b"!", tokens) {
        return opposite_at(furthest, inner, at, rest);
    }
    if let Some((at, rest)) = mark_at(furthest, b"-", tokens) {
        return negation_at(furthest, inner, at, rest);
    }
    postfix_at(furthest, inner, tokens)
}

// An operator of one precedence, and an operand of another.
#[cycle(expressions)]
#[tactic(auto, unfolding(crate::specs::Reading::operand_at))]
fn operand_at<'a>(
    furthest: &mut Furthest,
    precedence: u32,
    right: u32,
    inner: u8,
    tokens: &'a [Token],
) -> Result<Option<(Operand, u32, &'a [Token])>, NoMemory>
    ensures read { Gives result (operand_at precedence right (expr_at inner) tokens.now) }
    ensures within { Within inner result }
{
    let Some(((at, operator), rest)) = operator_at(furthest, precedence, tokens) else {
        return Ok(None);
    };
    let Some((right, height, rest)) = expr_at(furthest, inner, right, rest)? else {
        return Ok(None);
    };
    let operand = Operand {
        at,
        operator,
        right: Boxed::new(furthest.alloc, right)?,
    };
    Ok(Some((operand, height, rest)))
}

// What was read, as the left operand of as many operators of a precedence as stand here, but of `most` at most. The
// operands after them are of the precedence `right`.
#[cycle(expressions)]
#[tactic(auto, using(crate::proofs::Loops::loops))]
fn operands_at<'a>(
    furthest: &mut Furthest,
    precedence: u32,
    right: u32,
    most: usize,
    inner: u8,
    first: ExprTree,
    first_height: u32,
    tokens: &'a [Token],
) -> Result<(ExprTree, u32, &'a [Token]), NoMemory>
    requires low { first_height ≤ inner + 1 }
    ensures read { GivesOne result (grow joined inner (operand_at precedence right (expr_at inner)) most first first_height tokens.now) }
    ensures within { WithinOne (inner + 1) result }
{
    let mut so_far = first;
    let mut height = first_height;
    let mut rest = tokens;
    for _turn in 0..most {
        if u32::from(inner) < height {
            return Ok((so_far, height, rest));
        }
        let Some((operand, operand_height, after)) = operand_at(
            furthest, precedence, right, inner, rest,
        )?
        else {
            return Ok((so_far, height, rest));
        };
        so_far = joined(furthest.alloc, so_far, operand)?;
        height = height.max(operand_height) + 1;
        rest = after;
    }
    Ok((so_far, height, rest))
}

// `? expr : expr`
#[cycle(expressions)]
#[tactic(auto, unfolding(crate::specs::Reading::branches_at))]
fn branches_at<'a>(
    furthest: &mut Furthest,
    inner: u8,
    tokens: &'a [Token],
) -> Result<Option<(Branches, u32, &'a [Token])>, NoMemory>
    ensures read { Gives result (branches_at (expr_at inner) tokens.now) }
    ensures within { Within inner result }
{
    let Some((at, rest)) = mark_at(furthest, b"?", tokens) else {
        return Ok(None);
    };
    let Some((chosen, chosen_height, rest)) = closed_at(furthest, b":", inner, rest)? else {
        return Ok(None);
    };
    let Some((otherwise, height, rest)) = expr_at(furthest, inner, 10, rest)? else {
        return Ok(None);
    };
    let branches = Branches {
        at,
        chosen,
        otherwise: Boxed::new(furthest.alloc, otherwise)?,
    };
    Ok(Some((branches, chosen_height.max(height), rest)))
}

// What was read, as the condition of a choice where one stands here.
#[cycle(expressions)]
#[tactic(auto, using(crate::proofs::Loops::choice_loops))]
fn choice_at<'a>(
    furthest: &mut Furthest,
    inner: u8,
    condition: ExprTree,
    height: u32,
    tokens: &'a [Token],
) -> Result<(ExprTree, u32, &'a [Token]), NoMemory>
    requires low { height ≤ inner + 1 }
    ensures read { GivesOne result (grow chosen inner (branches_at (expr_at inner)) 1 condition height tokens.now) }
    ensures within { WithinOne (inner + 1) result }
{
    if u32::from(inner) < height {
        return Ok((condition, height, tokens));
    }
    let Some((branches, branches_height, rest)) = branches_at(furthest, inner, tokens)? else {
        return Ok((condition, height, tokens));
    };
    let tree = chosen(furthest.alloc, condition, branches)?;
    Ok((tree, height.max(branches_height) + 1, rest))
}

// How an expression of the precedence below goes on at this precedence, from 3 to 10.
#[cycle(expressions)]
#[tactic(auto, unfolding(crate::specs::Reading::more_at))]
fn more_at<'a>(
    furthest: &mut Furthest,
    precedence: u32,
    inner: u8,
    first: ExprTree,
    height: u32,
    tokens: &'a [Token],
) -> Result<(ExprTree, u32, &'a [Token]), NoMemory>
    requires some { 1 ≤ precedence }
    requires low { height ≤ inner + 1 }
    ensures read { GivesOne result (more_at precedence inner (expr_at inner) first height tokens.now) }
    ensures within { WithinOne (inner + 1) result }
{
    if precedence == 3 {
        return operands_at(furthest, 3, 3, 1, inner, first, height, tokens);
    }
    if precedence == 10 {
        return choice_at(furthest, inner, first, height, tokens);
    }
    operands_at(
        furthest,
        precedence,
        precedence - 1,
        tokens.len(),
        inner,
        first,
        height,
        tokens,
    )
}

// Precedences 3 to 10.
#[cycle(expressions)]
fn loose_at<'a>(
    furthest: &mut Furthest,
    precedence: u32,
    inner: u8,
    tokens: &'a [Token],
) -> Result<Option<(ExprTree, u32, &'a [Token])>, NoMemory>
    requires { 1 ≤ precedence }
    ensures read { Gives result (loose precedence inner (expr_at inner) (ladder inner (expr_at inner) (precedence - 1)) tokens.now) }
    ensures within { Within (inner + 1) result }
{
    let Some((first, height, rest)) = rung_at(furthest, precedence - 1, inner, tokens)? else {
        return Ok(None);
    };
    Ok(Some(more_at(furthest, precedence, inner, first, height, rest)?))
}

// An expression of one of the ten precedences.
#[cycle(expressions)]
#[tactic(auto, using(crate::proofs::Loops::ladders))]
fn rung_at<'a>(
    furthest: &mut Furthest,
    precedence: u32,
    inner: u8,
    tokens: &'a [Token],
) -> Result<Option<(ExprTree, u32, &'a [Token])>, NoMemory>
    ensures read { Gives result (ladder inner (expr_at inner) precedence tokens.now) }
    ensures within { Within (inner + 1) result }
{
    if precedence == 0 {
        return Ok(None);
    }
    if precedence == 1 {
        return postfix_at(furthest, inner, tokens);
    }
    if precedence == 2 {
        return prefix_at(furthest, inner, tokens);
    }
    loose_at(furthest, precedence, inner, tokens)
}

/// An expression of one of the ten precedences, from 1 to 10, whose tree has at most so many levels: the longest
/// that stands here.
#[cycle(expressions)]
#[tactic(auto, using(crate::proofs::Loops::expr_levels))]
pub fn expr_at<'a>(
    furthest: &mut Furthest,
    levels_left: u8,
    precedence: u32,
    tokens: &'a [Token],
) -> Result<Option<(ExprTree, u32, &'a [Token])>, NoMemory>
    ensures read { Gives result (expr_at levels_left precedence tokens.now) }
    ensures within { Within levels_left result }
{
    if levels_left == 0 {
        return Ok(None);
    }
    rung_at(furthest, precedence, levels_left - 1, tokens)
}

// The first level that is too high.
const TOO_HIGH: u32 = MAX_LEVELS as u32 + 1;

/// The longest expression that begins at the token `from` and whose tree has at most `MAX_LEVELS` levels, where its outermost
/// node has the level `level`, from 1 on; and the first token after it.
pub fn parse_expr(
    alloc: Global,
    tokens: &[Token],
    from: u32,
    level: u32,
) -> Result<(ExprTree, u32), ParseFault>
    requires few { length tokens.now ≤ MAX_FILE_BYTES }
    requires within { from ≤ length tokens.now }
    requires levels_left { (1 ≤ level) × (level ≤ MAX_LEVELS) }
    ensures { Finds result tokens.now from level }
{
    let mut furthest = Furthest::new(alloc);
    let rest = &tokens[from as usize..];
    let Some((tree, _, after)) = expr_at(&mut furthest, (TOO_HIGH - level) as u8, 10, rest)? else {
        return Err(ParseFault::NoTree {
            at: furthest.place(tokens),
        });
    };
    Ok((tree, (tokens.len() - after.len()) as u32))
}
