// Two passes of one lock, one call after another.

ghost use Rattle.std.specs.Prelude.{◌≡◌, []};
ghost use Rattle.std.specs.Arc.{arc_value};
ghost use Rattle.pool_lock.specs.Calls.{IsOurs};
ghost use Rattle.chc_tests.specs.Ready.{IsBeginner};

use crate::counter::{are_at_most, counter};
use crate::pool::free_batch;
use crate::shared_pool::{look, publish};
use chc_form::{System, well_made};
use chc_nums::{List, NoMemory};
use pool_lock::{Pass, PoolLock};
use pool_state::{Batch, Joined, Pool};
use std::alloc::Global;
use std::sync::{Arc, Wait};
use std::test::Fail;

// Both passes look, the second publishes, the first publishes, and both look again. Whether nothing is seen at first, the places are 0
// and 1, and both see both lemmas in that order.
#[tactic(auto, using(crate::proofs::Turning::turning))]
fn take_turns<R: Wait>(
    rt: &R,
    alloc: Global,
    lock: &PoolLock<Pool>,
    s: &Arc<System>,
    first: &mut Pass<Pool>,
    second: &mut Pass<Pool>,
    batches: (Batch, Batch),
) -> bool
    requires first { IsBeginner lock.now.table.shared.table_id (arc_value s.now) first.old }
    requires second { IsBeginner lock.now.table.shared.table_id (arc_value s.now) second.old }
    requires fits { (batches.0.system ≡ arc_value s.now) × (batches.0.base ≡ []) }
    requires fits_too { (batches.1.system ≡ arc_value s.now) × (batches.1.base ≡ []) }
    ensures first { IsOurs lock.now.table.shared.table_id first.new }
    ensures second { IsOurs lock.now.table.shared.table_id second.new }
{
    let (ten, eleven) = batches;
    let mut had = List::new(alloc);
    let mut have = List::new(alloc);
    let looked = look(rt, lock, s, first, &mut had);
    let looked_too = look(rt, lock, s, second, &mut have);
    let is_bare = had.is_empty() && have.is_empty();
    let place = publish(rt, lock, s, second, &have, ten);
    let next = publish(rt, lock, s, first, &had, eleven);
    let looks = look(rt, lock, s, first, &mut had);
    let looks_too = look(rt, lock, s, second, &mut have);
    looked
        && looked_too
        && is_bare
        && place == Some(0)
        && next == Some(1)
        && looks
        && looks_too
        && are_at_most(had.as_slice(), &[10, 11])
        && are_at_most(have.as_slice(), &[10, 11])
}

fn are_joined(pool: &Pool) -> bool {
    let joined = [
        Joined {
            worker: 1,
            base: 0,
            len: 1,
        },
        Joined {
            worker: 0,
            base: 0,
            len: 1,
        },
    ];
    pool.batches() == joined.as_slice()
}

fn join_two<R: Wait>(rt: &R, alloc: Global) -> Result<bool, NoMemory> {
    let s = Arc::new(alloc, counter(alloc)?)?;
    if !well_made(&s) {
        return Ok(false);
    }
    let Some(ten) = free_batch(alloc, &s, 10)? else {
        return Ok(false);
    };
    let Some(eleven) = free_batch(alloc, &s, 11)? else {
        return Ok(false);
    };
    let pool = Pool::new(alloc, s.clone()?)?;
    let (lock, passes) = match PoolLock::open(alloc, pool, 2) {
        Ok(opened) => opened,
        Err((_pool, e)) => return Err(e),
    };
    let mut passes = passes;
    let Some(mut second) = passes.pop() else {
        unreachable!()
    };
    let Some(mut first) = passes.pop() else {
        unreachable!()
    };
    let went = take_turns(rt, alloc, &lock, &s, &mut first, &mut second, (ten, eleven));
    passes.push_reserved(first);
    passes.push_reserved(second);
    let pool = lock.close(passes);
    Ok(went && are_joined(&pool))
}

#[test]
fn two_passes_join_their_batches(rt: HostRuntime) -> Result<(), Fail> {
    let are_right = join_two(&rt, rt.alloc())?;
    assert!(rt; are_right);
    Ok(())
}
