// Rounds on the counter.

use crate::counter::{START, STEP, are_at_most, counter, lemma};
use chc_ask::Why;
use chc_form::{Lemma, Limits, System, well_made};
use chc_houdini::{Greatest, greatest_of};
use chc_nums::{List, NoMemory};
use std::alloc::Global;
use std::test::Fail;

const LIMITS: Limits = Limits {
    pivots: 1000,
    nodes: 1,
};

const NO_PIVOTS: Limits = Limits {
    pivots: 0,
    nodes: 1,
};

// x <= 0, x <= 1, x >= 1, x <= 9, x >= 9, x <= 10, x >= 10, x <= 11, x >= 11
const CANDIDATES: [(i128, i128); 9] = [
    (1, 0),
    (1, -1),
    (-1, 1),
    (1, -9),
    (-1, 9),
    (1, -10),
    (-1, 10),
    (1, -11),
    (-1, 11),
];

fn candidates(alloc: Global) -> Result<List<Lemma>, NoMemory> {
    let mut all = List::new(alloc);
    for (factor, konst) in &CANDIDATES {
        all.push(lemma(alloc, &[*factor], *konst)?)?;
    }
    Ok(all)
}

fn is_drop(g: &Greatest, at: usize, round: u32, lemma: u32, rule: u32) -> bool {
    match g.drops.get(at) {
        None => false,
        Some(d) => {
            d.round == round
                && d.lemma == lemma
                && d.rule == rule
                && matches!(&d.left.why, Why::Point(_, _))
        }
    }
}

fn has_drops(g: &Greatest) -> bool {
    for (at, round, lemma, rule) in [
        (0, 0, 2, START),
        (1, 0, 4, START),
        (2, 0, 6, START),
        (3, 0, 8, START),
        (4, 1, 0, STEP),
        (5, 2, 1, STEP),
        (6, 3, 3, STEP),
    ] {
        if !is_drop(g, at, round, lemma, rule) {
            return false;
        }
    }
    g.drops.len() == 7
}

fn keeps_what_holds(alloc: Global, s: &System) -> Result<bool, NoMemory> {
    if !well_made(s) {
        return Ok(false);
    }
    let from = candidates(alloc)?;
    if from.len() != 9 {
        return Ok(false);
    }
    let g = greatest_of(alloc, s, from, LIMITS)?;
    Ok(
        g.rounds == 4
            && has_drops(&g)
            && are_at_most(g.lemmas.as_slice(), &[10, 11])
            && g.proofs.len() == 4,
    )
}

// Whether the first drop, and a copy of it, is for want of pivots.
fn wants_pivots(alloc: Global, g: &Greatest) -> Result<bool, NoMemory> {
    match g.drops.get(0) {
        None => Ok(false),
        Some(d) => {
            let copy = d.copy(alloc)?;
            Ok(matches!(&copy.left.why, Why::Pivots))
        }
    }
}

fn drops_all(alloc: Global, s: &System) -> Result<bool, NoMemory> {
    if !well_made(s) {
        return Ok(false);
    }
    let from = candidates(alloc)?;
    if from.len() != 9 {
        return Ok(false);
    }
    let g = greatest_of(alloc, s, from, NO_PIVOTS)?;
    Ok(g.lemmas.is_empty() && wants_pivots(alloc, &g)?)
}

#[test]
fn rounds_keep_what_holds(rt: HostRuntime) -> Result<(), Fail> {
    let alloc = rt.alloc();
    let s = counter(alloc)?;
    let are_right = keeps_what_holds(alloc, &s)? && drops_all(alloc, &s)?;
    assert!(rt; are_right);
    Ok(())
}
