// A pool that threads share under its lock.

ghost use Rattle.std.specs.Prelude.{◌≡◌, ◌≤◌, All, IfSome, []};
ghost use Rattle.std.specs.Arc.{arc_value};
ghost use Rattle.pool_lock.specs.Calls.{IsOurs};
ghost use Rattle.chc_tests.specs.Ready.{IsBeginner, IsReady};

use crate::counter::{counter, is_at_most};
use crate::pool::free_batch;
use chc_form::{Lemma, System, well_made};
use chc_nums::{List, NoMemory};
use pool_lock::{Pass, PoolLock};
use pool_state::{Batch, Pool};
use std::alloc::Global;
use std::sync::atomic::{AtomicU64, Ordering};
use std::sync::{Arc, Wait};
use std::test::Fail;
use std::thread::{Threads, for_each_mut};

// What the lemma of a thread's batch says is the most.
fn most_at(turn: usize) -> i128 {
    10 + (turn % 200) as i128
}

// The batch of a turn. Memory may be wanted once.
fn batch_at(alloc: Global, s: &Arc<System>, turn: usize) -> Option<Batch>
    ensures { IfSome result (λ b. (b.system ≡ arc_value s.now) × (b.base ≡ [])) }
{
    match free_batch(alloc, s, most_at(turn)) {
        Ok(batch) => batch,
        Err(_) => free_batch(alloc, s, most_at(turn)).ok()?,
    }
}

// A batch is published, at a place. Memory may be wanted once.
#[tactic(auto, using(crate::proofs::Turning::turning))]
pub fn publish<R: Wait>(
    rt: &R,
    lock: &PoolLock<Pool>,
    s: &Arc<System>,
    pass: &mut Pass<Pool>,
    have: &List<Lemma>,
    batch: Batch,
) -> Option<u64>
    requires ready { IsReady lock.now.table.shared.table_id (arc_value s.now) have.now pass.old }
    requires fits { (batch.system ≡ arc_value s.now) × (batch.base ≡ []) }
    ensures { IsReady lock.now.table.shared.table_id (arc_value s.now) have.now pass.new }
{
    match lock.publish(rt, pass, batch) {
        Ok(at) => Some(at),
        Err((back, _)) => lock.publish(rt, pass, back).ok(),
    }
}

// A look. Memory may be wanted once.
#[tactic(auto, using(crate::proofs::Turning::turning))]
pub fn look<R: Wait>(
    rt: &R,
    lock: &PoolLock<Pool>,
    s: &Arc<System>,
    pass: &mut Pass<Pool>,
    have: &mut List<Lemma>,
) -> bool
    requires { IsReady lock.now.table.shared.table_id (arc_value s.now) have.old pass.old }
    ensures { IsReady lock.now.table.shared.table_id (arc_value s.now) have.new pass.new }
{
    match lock.look(rt, pass, have) {
        Ok(()) => true,
        Err(_) => lock.look(rt, pass, have).is_ok(),
    }
}

// A batch is published, and a look follows. Whether it shows as many lemmas as the pass has published by then, at least.
fn take_turn<R: Wait>(
    rt: &R,
    alloc: Global,
    lock: &PoolLock<Pool>,
    s: &Arc<System>,
    turn: usize,
    pass: &mut Pass<Pool>,
    have: &mut List<Lemma>,
) -> bool
    requires { IsReady lock.now.table.shared.table_id (arc_value s.now) have.old pass.old }
    ensures { IsReady lock.now.table.shared.table_id (arc_value s.now) have.new pass.new }
{
    match batch_at(alloc, s, turn) {
        Some(batch) => {
            publish(rt, lock, s, pass, have, batch).is_some()
                && look(rt, lock, s, pass, have)
                && have.len() > turn
        }
        None => false,
    }
}

// So many turns. Whether all went well.
#[tactic(auto, using(crate::proofs::Turning::turning))]
fn take_turns<R: Wait>(
    rt: &R,
    alloc: Global,
    lock: &PoolLock<Pool>,
    s: &Arc<System>,
    turns: usize,
    pass: &mut Pass<Pool>,
) -> bool
    requires { IsBeginner lock.now.table.shared.table_id (arc_value s.now) pass.old }
    ensures { IsOurs lock.now.table.shared.table_id pass.new }
{
    let mut have = List::new(alloc);
    for turn in 0..turns {
        if !take_turn(rt, alloc, lock, s, turn, pass, &mut have) {
            return false;
        }
    }
    true
}

// Each pass takes its turns in a thread. How many passes had them all go well.
fn work<R: Threads + Wait + Sync>(
    rt: &R,
    alloc: Global,
    lock: &PoolLock<Pool>,
    s: &Arc<System>,
    threads: usize,
    turns: usize,
    passes: &mut [Pass<Pool>],
) -> u64
    requires threads { 1 ≤ threads }
    requires beginners { All (IsBeginner lock.now.table.shared.table_id (arc_value s.now)) passes.old }
    ensures { All (IsOurs lock.now.table.shared.table_id) passes.new }
{
    let well = AtomicU64::new(0);
    for_each_mut(
        rt,
        passes,
        threads,
        &|_, pass: &mut Pass<Pool>|
            requires { IsBeginner lock.now.table.shared.table_id (arc_value s.now) pass.old }
            ensures { IsOurs lock.entry.now.table.shared.table_id pass.new }
        {
            if take_turns(rt, alloc, lock, s, turns, pass) {
                well.fetch_add(1, Ordering::SeqCst);
            }
        },
    );
    well.load(Ordering::SeqCst)
}

// Whether the batches of a worker stand in order, so many in all.
fn stand(pool: &Pool, worker: u32, turns: usize) -> bool {
    let mut turn = 0;
    for (joined, lemma) in pool.batches().iter().zip(pool.lemmas()) {
        if joined.worker == worker {
            if joined.len != 1 || !is_at_most(lemma, most_at(turn)) {
                return false;
            }
            turn = turn.saturating_add(1);
        }
    }
    turn == turns
}

// So many threads take so many turns each. Whether all batches stand afterwards, each once and in its worker's order, and no
// others.
pub fn share<R: Threads + Wait + Sync>(
    rt: &R,
    alloc: Global,
    threads: u32,
    turns: usize,
) -> Result<bool, NoMemory>
    requires some { 1 ≤ threads }
    requires few { threads ≤ 64 }
{
    let s = Arc::new(alloc, counter(alloc)?)?;
    if !well_made(&s) {
        return Ok(false);
    }
    let pool = Pool::new(alloc, s.clone()?)?;
    let (lock, passes) = match PoolLock::open(alloc, pool, threads) {
        Ok(opened) => opened,
        Err((_pool, e)) => return Err(e),
    };
    let mut passes = passes;
    let all = passes.as_mut_slice();
    let well = work(rt, alloc, &lock, &s, threads as usize, turns, all);
    let pool = lock.close(passes);
    Ok(
        well == threads as u64
            && pool.batches().len() == pool.lemmas().len()
            && pool.batches().len() == turns.saturating_mul(threads as usize)
            && (0..threads).all(|worker| stand(&pool, worker, turns)),
    )
}

// So many threads, each with so many turns that 5,000 batches come in all, or a few less.
fn are_shared<R: Threads + Wait + Sync>(
    rt: &R,
    alloc: Global,
    threads: u32,
) -> Result<bool, NoMemory>
    requires some { 1 ≤ threads }
    requires few { threads ≤ 64 }
{
    share(rt, alloc, threads, (5000 / threads) as usize)
}

#[test]
fn one_thread_loses_no_batch(rt: HostRuntime) -> Result<(), Fail> {
    let are_right = are_shared(&rt, rt.alloc(), 1)?;
    assert!(rt; are_right);
    Ok(())
}

#[test]
fn two_threads_lose_no_batch(rt: HostRuntime) -> Result<(), Fail> {
    let are_right = are_shared(&rt, rt.alloc(), 2)?;
    assert!(rt; are_right);
    Ok(())
}

#[test]
fn four_threads_lose_no_batch(rt: HostRuntime) -> Result<(), Fail> {
    let are_right = are_shared(&rt, rt.alloc(), 4)?;
    assert!(rt; are_right);
    Ok(())
}

#[test]
fn sixteen_threads_lose_no_batch(rt: HostRuntime) -> Result<(), Fail> {
    let are_right = are_shared(&rt, rt.alloc(), 16)?;
    assert!(rt; are_right);
    Ok(())
}

#[test]
fn sixty_four_threads_lose_no_batch(rt: HostRuntime) -> Result<(), Fail> {
    let are_right = are_shared(&rt, rt.alloc(), 64)?;
    assert!(rt; are_right);
    Ok(())
}
