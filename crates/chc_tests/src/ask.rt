// Questions on the counter.

ghost use Rattle.std.specs.Prelude.{◌≡◌, IfOk};
ghost use Rattle.chc_reduce.specs.Premises.{InOrder};

use crate::counter::{STEP, at_most, counter, lemma};
use chc_ask::{Answer, Asked, Open, Why, ask, ask_goal};
use chc_form::{Limits, Part, System, well_made};
use chc_nums::NoMemory;
use chc_reduce::Premises;
use std::alloc::Global;
use std::test::Fail;

const LIMITS: Limits = Limits {
    pivots: 100,
    nodes: 100,
};

const NO_PIVOTS: Limits = Limits {
    pivots: 0,
    nodes: 100,
};

fn is_refuted(answer: &Asked, multipliers: &[i128]) -> bool {
    match answer {
        Asked::Refuted(ms) => ms.as_slice() == multipliers,
        Asked::Open(_) => false,
    }
}

fn is_point(answer: &Asked, point: &[i128]) -> bool {
    match answer {
        Asked::Open(
            Open {
                branch,
                why: Why::Point(x, 1),
            },
        ) => branch.as_slice() == [0u32].as_slice() && x.as_slice() == point,
        _ => false,
    }
}

fn is_out_of_pivots(answer: &Asked) -> bool {
    match answer {
        Asked::Open(Open { why, .. }) => matches!(why, Why::Pivots),
        Asked::Refuted(_) => false,
    }
}

// Whether 11 can come where x <= 10 is had.
fn query_is_refuted(alloc: Global, s: &System) -> Result<bool, NoMemory> {
    if !well_made(s) {
        return Ok(false);
    }
    let lemmas = at_most(alloc, &[10, 11])?;
    let answer = ask(alloc, s, Part::Query(0), None, lemmas.as_slice(), LIMITS)?;
    Ok(is_refuted(&answer, &[0, 0, 1, 1, 0]))
}

// Whether 11 can come where x <= 11 is had, with and without pivots.
fn query_is_open(alloc: Global, s: &System) -> Result<bool, NoMemory> {
    if !well_made(s) {
        return Ok(false);
    }
    let lemmas = at_most(alloc, &[11])?;
    let answer = ask(alloc, s, Part::Query(0), None, lemmas.as_slice(), LIMITS)?;
    let stopped = ask(alloc, s, Part::Query(0), None, lemmas.as_slice(), NO_PIVOTS)?;
    Ok(is_point(&answer, &[11]) && is_out_of_pivots(&stopped))
}

fn asks(alloc: Global, premises: Premises, konst: i128) -> Result<Answer, NoMemory>
    requires { InOrder premises }
    ensures { IfOk result (λ a. a.premises ≡ premises) }
{
    let goal = lemma(alloc, &[1], konst)?;
    ask_goal(alloc, premises, &goal, LIMITS)
}

// Whether the step keeps x <= 9, and x <= 10, where x <= 9 is had.
fn goals_are_asked(alloc: Global, s: &System) -> Result<bool, NoMemory> {
    if !well_made(s) || s.rules.len() < 2 {
        return Ok(false);
    }
    let lemmas = at_most(alloc, &[9])?;
    let premises = Premises::new(alloc, s, STEP, lemmas.as_slice())?;
    let first = asks(alloc, premises, -9)?;
    let is_open = is_point(&first.asked, &[9, 10]);
    let second = asks(alloc, first.premises, -10)?;
    Ok(is_open && is_refuted(&second.asked, &[0, 0, 0, 0, 1, 1, 0, 1, 0]))
}

#[test]
fn questions_are_answered(rt: HostRuntime) -> Result<(), Fail> {
    let alloc = rt.alloc();
    let s = counter(alloc)?;
    let are_right = query_is_refuted(alloc, &s)?
        && query_is_open(alloc, &s)?
        && goals_are_asked(alloc, &s)?;
    assert!(rt; are_right);
    Ok(())
}
