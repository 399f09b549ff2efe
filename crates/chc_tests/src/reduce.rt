// Formulas of the counter's step, row by row.

use crate::counter::{STEP, Terms, are_rows, at_most, counter, lemma};
use chc_form::{Formula, Part, System, well_made};
use chc_nums::NoMemory;
use chc_reduce::{Premises, formula_rows, goal_rows, reduce};
use std::alloc::Global;
use std::test::Fail;

fn has_rows(alloc: Global, f: &Formula) -> Result<bool, NoMemory> {
    let wanted: [Terms; 9] = [
        (&[(0, -1)], 0),
        (&[(0, 1)], -255),
        (&[(1, -1)], 0),
        (&[(1, 1)], -255),
        (&[(1, -1)], 11),
        (&[(0, 1)], -9),
        (&[(0, 1), (1, -1)], 1),
        (&[(0, -1), (1, 1)], -1),
        (&[(0, 1)], -10),
    ];
    let made = formula_rows(alloc, f)?;
    Ok(
        are_rows(made.rows.as_slice(), &wanted)
            && made.plain
            && made.branch.as_slice() == [0u32].as_slice(),
    )
}

// That x <= 10 stays, where it is had.
fn step_is_reduced(alloc: Global, s: &System) -> Result<bool, NoMemory> {
    if !well_made(s) {
        return Ok(false);
    }
    let goal = lemma(alloc, &[1], -10)?;
    let lemmas = at_most(alloc, &[10])?;
    let f = reduce(alloc, s, Part::Rule(STEP), Some(&goal), lemmas.as_slice())?;
    has_rows(alloc, &f)
}

// The premises leave a place for the goal between these.
fn are_premises(premises: &Premises) -> bool {
    let before: [Terms; 4] = [
        (&[(0, -1)], 0),
        (&[(0, 1)], -255),
        (&[(1, -1)], 0),
        (&[(1, 1)], -255),
    ];
    let after: [Terms; 4] = [
        (&[(0, 1)], -9),
        (&[(0, 1), (1, -1)], 1),
        (&[(0, -1), (1, 1)], -1),
        (&[(0, 1)], -10),
    ];
    are_rows(premises.before.as_slice(), &before)
        && are_rows(premises.after.as_slice(), &after)
        && premises.plain
}

fn has_goal(alloc: Global, premises: &Premises) -> Result<bool, NoMemory> {
    let wanted: [Terms; 1] = [(&[(1, -1)], 11)];
    let goal = lemma(alloc, &[1], -10)?;
    let made = goal_rows(alloc, &premises.head, &goal)?;
    Ok(are_rows(made.as_slice(), &wanted))
}

fn step_has_premises(alloc: Global, s: &System) -> Result<bool, NoMemory> {
    if !well_made(s) || s.rules.len() < 2 {
        return Ok(false);
    }
    let lemmas = at_most(alloc, &[10])?;
    let premises = Premises::new(alloc, s, STEP, lemmas.as_slice())?;
    Ok(are_premises(&premises) && has_goal(alloc, &premises)?)
}

#[test]
fn step_is_a_formula(rt: HostRuntime) -> Result<(), Fail> {
    let s = counter(rt.alloc())?;
    let is_right = step_is_reduced(rt.alloc(), &s)? && step_has_premises(rt.alloc(), &s)?;
    assert!(rt; is_right);
    Ok(())
}
