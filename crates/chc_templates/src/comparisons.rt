// The numbers with which constraints compare a variable.

ghost use Rattle.std.specs.Prelude.{◌≡◌, [], ◌∷◌, pos, neg_ℤ, IfOk};
ghost use Rattle.std.specs.List.{flat_map};
ghost use Rattle.chc_templates.specs.Constants.{upper, lower, bound, bounds, hole, holes, con_constants, constants_in};
ghost use Rattle.chc_templates.specs.Firsts.{firsts};

use crate::placing::{cut, with_number, with_some};
use chc_form::{Con, Query, Rule, System};
use chc_nums::{List, NoMemory, difference, opposite};
use std::alloc::Global;

#[tactic(auto, using(crate::proofs::Orders::pairs))]
fn with_upper(alloc: Global, made: List<i128>, konst: i128) -> Result<List<i128>, NoMemory>
    ensures { IfOk result (λ list. list ≡ firsts made (upper konst)) }
{
    let first = with_some(alloc, made, opposite(konst))?;
    with_some(alloc, first, difference(1, konst))
}

#[tactic(auto, using(crate::proofs::Orders::pairs))]
fn with_lower(alloc: Global, made: List<i128>, konst: i128) -> Result<List<i128>, NoMemory>
    ensures { IfOk result (λ list. list ≡ firsts made (lower konst)) }
{
    let first = with_number(alloc, made, konst)?;
    with_some(alloc, first, difference(konst, 1))
}

#[tactic(auto, using(crate::proofs::Orders::firsts_of))]
fn with_bound(alloc: Global, made: List<i128>, a: i128, konst: i128) -> Result<List<i128>, NoMemory>
    ensures { IfOk result (λ list. list ≡ firsts made (bound a konst)) }
{
    if a == 1 {
        with_upper(alloc, made, konst)
    } else if a == -1 {
        with_lower(alloc, made, konst)
    } else {
        Ok(cut(made))
    }
}

#[tactic(auto, using(crate::proofs::Orders::firsts_of))]
fn with_bounds(
    alloc: Global,
    made: List<i128>,
    terms: &[(u32, i128)],
    konst: i128,
) -> Result<List<i128>, NoMemory>
    ensures { IfOk result (λ list. list ≡ firsts made (bounds terms.now konst)) }
{
    match terms {
        [] => Ok(cut(made)),
        [(_, a)] => with_bound(alloc, made, *a, konst),
        [_, _, ..] => Ok(cut(made)),
    }
}

#[tactic(auto, using(crate::proofs::Orders::pairs))]
fn with_opposite(alloc: Global, made: List<i128>, konst: i128) -> Result<List<i128>, NoMemory>
    ensures { IfOk result (λ list. list ≡ firsts made (neg_ℤ konst ∷ [])) }
{
    with_some(alloc, made, opposite(konst))
}

#[tactic(auto, using(crate::proofs::Orders::firsts_of))]
fn with_hole(alloc: Global, made: List<i128>, a: i128, konst: i128) -> Result<List<i128>, NoMemory>
    ensures { IfOk result (λ list. list ≡ firsts made (hole a konst)) }
{
    if a == 1 {
        with_opposite(alloc, made, konst)
    } else if a == -1 {
        with_number(alloc, made, konst)
    } else {
        Ok(cut(made))
    }
}

#[tactic(auto, using(crate::proofs::Orders::firsts_of))]
fn with_holes(
    alloc: Global,
    made: List<i128>,
    terms: &[(u32, i128)],
    konst: i128,
) -> Result<List<i128>, NoMemory>
    ensures { IfOk result (λ list. list ≡ firsts made (holes terms.now konst)) }
{
    match terms {
        [] => Ok(cut(made)),
        [(_, a)] => with_hole(alloc, made, *a, konst),
        [_, _, ..] => Ok(cut(made)),
    }
}

#[tactic(auto, using(crate::proofs::Orders::firsts_of))]
fn with_con(alloc: Global, made: List<i128>, con: &Con) -> Result<List<i128>, NoMemory>
    ensures { IfOk result (λ list. list ≡ firsts made (con_constants con.now)) }
{
    match con {
        Con::Le(l) => with_bounds(alloc, made, l.terms.as_slice(), l.konst),
        Con::Differ(l) => with_holes(alloc, made, l.terms.as_slice(), l.konst),
        Con::Mul(..) | Con::Div(..) | Con::Rem(..) | Con::Sel(..) | Con::Sto(..) | Con::Zero(_) => {
            Ok(cut(made))
        }
    }
}

#[tactic(auto, using(crate::proofs::Orders::firsts_of))]
fn with_cons(alloc: Global, made: List<i128>, cons: &[Con]) -> Result<List<i128>, NoMemory>
    ensures { IfOk result (λ list. list ≡ firsts made (flat_map con_constants cons.now)) }
{
    let mut made = made;
    let mut rest = cons;
    while let [con, more @ ..] = rest {
        made = with_con(alloc, made, con)?;
        rest = more;
    }
    Ok(cut(made))
}

#[tactic(auto, using(crate::proofs::Orders::firsts_of))]
fn with_rules(alloc: Global, made: List<i128>, rules: &[Rule]) -> Result<List<i128>, NoMemory>
    ensures { IfOk result (λ list. list ≡ firsts made (flat_map (λ r. flat_map con_constants r.cons) rules.now)) }
{
    let mut made = made;
    let mut rest = rules;
    while let [rule, more @ ..] = rest {
        made = with_cons(alloc, made, rule.cons.as_slice())?;
        rest = more;
    }
    Ok(cut(made))
}

#[tactic(auto, using(crate::proofs::Orders::firsts_of))]
fn with_queries(alloc: Global, made: List<i128>, queries: &[Query]) -> Result<List<i128>, NoMemory>
    ensures { IfOk result (λ list. list ≡ firsts made (flat_map (λ q. flat_map con_constants q.cons) queries.now)) }
{
    let mut made = made;
    let mut rest = queries;
    while let [query, more @ ..] = rest {
        made = with_cons(alloc, made, query.cons.as_slice())?;
        rest = more;
    }
    Ok(cut(made))
}

fn zero_and_one(alloc: Global) -> Result<List<i128>, NoMemory>
    ensures { IfOk result (λ list. list ≡ pos 0 ∷ pos 1 ∷ []) }
{
    let mut made = List::new(alloc);
    made.push(0)?;
    made.push(1)?;
    Ok(made)
}

/// The first sixteen constants of a system, but for those too large to be of a type.
#[tactic(auto, using(crate::proofs::Orders::firsts_of))]
pub fn constants(alloc: Global, s: &System) -> Result<List<i128>, NoMemory>
    ensures { IfOk result (λ list. list ≡ firsts (pos 0 ∷ pos 1 ∷ []) (constants_in s.now)) }
{
    let first = zero_and_one(alloc)?;
    let made = with_rules(alloc, first, s.rules.as_slice())?;
    with_queries(alloc, made, s.queries.as_slice())
}
