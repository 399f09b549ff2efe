// Batches of lemmas of the counter.

ghost use Rattle.std.specs.Prelude.{◌≡◌, [], IfOk, IfSome, OnOk};
ghost use Rattle.std.specs.Arc.{arc_value};
ghost use Rattle.std.specs.List.{list_all};
ghost use Rattle.chc_form.specs.WellMade.{of_system as is_of_system};

use crate::counter::{are_at_most, at_most, counter};
use chc_form::{Lemma, System, of_system, well_made};
use chc_nums::{List, NoMemory};
use pool_state::{Batch, BatchFault, Joined, Pool};
use std::alloc::Global;
use std::sync::Arc;
use std::test::Fail;

// Multipliers for the rows of x <= k at the first rule, k + 1 - x and x, and at the second, k + 1 - y, x - 9 and
// y - x - 1, where one lemma is had and where two are.
#[derive(Clone, Copy)]
pub enum Proof {
    Start,
    Step,
    StepUnderTwo,
}

fn multipliers(alloc: Global, proof: Proof) -> Result<List<i128>, NoMemory> {
    let of = match proof {
        Proof::Start => Vec::from_slice(alloc, &[0, 0, 1, 1, 0])?,
        Proof::Step => Vec::from_slice(alloc, &[0, 0, 0, 0, 1, 1, 0, 1, 0])?,
        Proof::StepUnderTwo => Vec::from_slice(alloc, &[0, 0, 0, 0, 1, 1, 0, 1, 0, 0])?,
    };
    Ok(List::from_vec(of))
}

pub fn proofs(alloc: Global, proofs: &[Proof]) -> Result<Vec<List<i128>>, NoMemory> {
    let mut all = Vec::new(alloc);
    for proof in proofs {
        all.push(multipliers(alloc, *proof)?)?;
    }
    Ok(all)
}

fn are_of(s: &System, lemmas: &[Lemma]) -> bool
    ensures { result ≡ list_all (is_of_system s.now) lemmas.now }
{
    lemmas.iter().all(|l| of_system(s, l))
}

// What comes of a batch; none where the conditions for one aren't met.
pub fn batch_of(
    alloc: Global,
    s: &Arc<System>,
    base: Vec<Lemma>,
    lemmas: Vec<Lemma>,
    proofs: Vec<List<i128>>,
) -> Option<Result<Batch, BatchFault>>
    ensures { IfSome result (λ r. IfOk r (λ b. (b.system ≡ arc_value s.now) × (b.base ≡ base.items))) }
{
    if !well_made(s) || !are_of(s, base.as_slice()) || !are_of(s, lemmas.as_slice()) {
        return None;
    }
    if lemmas.is_empty() || lemmas.len() > 1024 {
        return None;
    }
    Some(Batch::new(alloc, s, base, lemmas, proofs))
}

// That the argument is at most a number, with no base; none where there is no such batch.
pub fn free_batch(alloc: Global, s: &Arc<System>, most: i128) -> Result<Option<Batch>, NoMemory>
    ensures { IfOk result (λ o. IfSome o (λ b. (b.system ≡ arc_value s.now) × (b.base ≡ []))) }
{
    let proofs = proofs(alloc, &[Proof::Start, Proof::Step])?;
    let lemmas = at_most(alloc, &[most])?;
    match batch_of(alloc, s, Vec::new(alloc), lemmas, proofs) {
        Some(Ok(batch)) => Ok(Some(batch)),
        Some(Err(BatchFault::NoMemory)) => Err(NoMemory),
        Some(Err(_)) | None => Ok(None),
    }
}

#[tactic(auto, using(pool_state::proofs::Growing::fitting))]
fn join(pool: &mut Pool, by: u32, batch: Batch) -> Result<(), NoMemory>
    requires same { batch.system ≡ pool.old.system }
    requires free { batch.base ≡ [] }
    ensures { OnOk result (pool.new.system ≡ pool.old.system) }
{
    match pool.append(by, batch) {
        Ok(()) => Ok(()),
        Err((_batch, e)) => Err(e),
    }
}

fn are_joined(pool: &Pool) -> bool {
    let joined = [
        Joined {
            worker: 3,
            base: 0,
            len: 1,
        },
        Joined {
            worker: 5,
            base: 0,
            len: 1,
        },
    ];
    pool.batches() == joined.as_slice()
        && are_at_most(pool.lemmas(), &[10, 11])
        && pool.system().rules.len() == 2
}

// A pool to which two batches are joined.
fn pool_of_two(alloc: Global, s: &Arc<System>) -> Result<bool, NoMemory> {
    if !well_made(s) {
        return Ok(false);
    }
    let mut pool = Pool::new(alloc, s.clone()?)?;
    for (by, most) in [(3, 10), (5, 11)] {
        let Some(batch) = free_batch(alloc, s, most)? else {
            return Ok(false);
        };
        join(&mut pool, by, batch)?;
    }
    Ok(are_joined(&pool))
}

// Whether x <= 10 is shown where x <= 11 is had.
fn has_base(alloc: Global, s: &Arc<System>) -> Result<bool, NoMemory> {
    let proofs = proofs(alloc, &[Proof::Start, Proof::StepUnderTwo])?;
    let base = at_most(alloc, &[11])?;
    match batch_of(alloc, s, base, at_most(alloc, &[10])?, proofs) {
        Some(Ok(batch)) => {
            Ok(are_at_most(batch.base(), &[11]) && are_at_most(batch.lemmas(), &[10]))
        }
        Some(Err(BatchFault::NoMemory)) => Err(NoMemory),
        Some(Err(_)) | None => Ok(false),
    }
}

#[test]
fn batches_join_in_order(rt: HostRuntime) -> Result<(), Fail> {
    let s = Arc::new(rt.alloc(), counter(rt.alloc())?)?;
    let are_right = pool_of_two(rt.alloc(), &s)? && has_base(rt.alloc(), &s)?;
    assert!(rt; are_right);
    Ok(())
}

// What comes of the lemma that the argument is at most a number, with these proofs; none where the conditions aren't met.
fn made(
    alloc: Global,
    most: i128,
    shown: &[Proof],
) -> Result<Option<Result<(), BatchFault>>, NoMemory> {
    let s = Arc::new(alloc, counter(alloc)?)?;
    let proofs = proofs(alloc, shown)?;
    match batch_of(alloc, &s, Vec::new(alloc), at_most(alloc, &[most])?, proofs) {
        Some(Ok(_)) => Ok(Some(Ok(()))),
        Some(Err(BatchFault::NoMemory)) => Err(NoMemory),
        Some(Err(fault)) => Ok(Some(Err(fault))),
        None => Ok(None),
    }
}

#[test]
fn first_open_obligation_is_named(rt: HostRuntime) -> Result<(), Fail> {
    let at_start = Err(BatchFault::Unproved { lemma: 0, rule: 0 });
    let at_step = Err(BatchFault::Unproved { lemma: 0, rule: 1 });
    for (most, shown, want) in [
        // A proof is missing.
        (10, &[Proof::Start][..], at_step),
        // A proof is that of another formula.
        (10, &[Proof::Step, Proof::Start][..], at_start),
        // 9 goes to 10, and the constants' sum is 0.
        (9, &[Proof::Start, Proof::Step][..], at_step),
        // Further proofs are not looked at.
        (10, &[Proof::Start, Proof::Step, Proof::Start][..], Ok(())),
    ] {
        let got = made(rt.alloc(), most, shown)?;
        assert_eq!(rt; got, Some(want));
    }
    Ok(())
}
