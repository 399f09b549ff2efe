// Events of a pool's core.

use crate::counter::{at_most, counter};
use crate::pool::{Proof, batch_of, free_batch, proofs};
use chc_ask::Asked;
use chc_form::{System, well_made};
use chc_nums::{List, NoMemory};
use pool_core::{Event, PoolCore, Told, are_in_range, run_core};
use pool_state::{Batch, BatchFault, Joined};
use std::alloc::Global;
use std::sync::Arc;
use std::test::Fail;

// What is told of events: lengths and places as numbers.
#[derive(Clone, Copy, Debug, PartialEq, Eq)]
enum Short {
    Seen(u64),
    Placed(u64),
    Stranger,
    Refuted,
    Open,
}

fn in_short(told: &Told) -> Short {
    match told {
        Told::Seen { len } => Short::Seen(*len),
        Told::Placed { at } => Short::Placed(*at),
        Told::Stranger { .. } => Short::Stranger,
        Told::Asked(Asked::Refuted(_)) => Short::Refuted,
        Told::Asked(Asked::Open(_)) => Short::Open,
    }
}

// That x <= 10, shown over x <= 11.
fn batch_over(alloc: Global, s: &Arc<System>) -> Result<Option<Batch>, NoMemory> {
    let proofs = proofs(alloc, &[Proof::Start, Proof::StepUnderTwo])?;
    let base = at_most(alloc, &[11])?;
    match batch_of(alloc, s, base, at_most(alloc, &[10])?, proofs) {
        Some(Ok(batch)) => Ok(Some(batch)),
        Some(Err(BatchFault::NoMemory)) => Err(NoMemory),
        Some(Err(_)) | None => Ok(None),
    }
}

fn look(worker: u32) -> Option<Event> {
    Some(Event::Look { worker })
}

fn answer(worker: u32, target: u32) -> Option<Event> {
    Some(Event::Answer { worker, target })
}

fn publish(worker: u32, batch: Option<Batch>) -> Option<Event> {
    match batch {
        Some(batch) => Some(Event::Publish { worker, batch }),
        None => None,
    }
}

// A system with one query more.
fn other(alloc: Global) -> Result<Arc<System>, NoMemory> {
    let mut system = counter(alloc)?;
    let more = counter(alloc)?;
    let mut queries = system.queries.into_vec();
    let mut added = more.queries.into_vec();
    queries.append(&mut added)?;
    system.queries = List::from_vec(queries);
    Ok(Arc::new(alloc, system)?)
}

// The events that are told below.
fn events(alloc: Global, s: &Arc<System>) -> Result<Option<Vec<Event>>, NoMemory> {
    let other = other(alloc)?;
    let mut events = Vec::new(alloc);
    for event in [
        look(0),
        look(1),
        publish(1, free_batch(alloc, s, 10)?),
        publish(0, free_batch(alloc, s, 11)?),
        answer(0, 0),
        look(0),
        answer(0, 0),
        publish(1, batch_over(alloc, s)?),
        publish(1, free_batch(alloc, &other, 10)?),
    ] {
        match event {
            Some(event) => events.push(event)?,
            None => return Ok(None),
        }
    }
    Ok(Some(events))
}

// What is told of them, and the batches that stand afterwards.
fn told(alloc: Global, s: &Arc<System>) -> Result<Option<(Vec<Short>, Vec<Joined>)>, NoMemory> {
    if !well_made(s) {
        return Ok(None);
    }
    let mut core = PoolCore::new(alloc, Arc::try_clone(s)?, 2)?;
    let Some(events) = events(alloc, s)? else {
        return Ok(None);
    };
    if !are_in_range(&core, events.as_slice()) {
        return Ok(None);
    }
    let told = run_core(&mut core, alloc, events)?;
    let mut all = Vec::new(alloc);
    for one in told.as_slice() {
        all.push(in_short(one))?;
    }
    let joined = Vec::from_slice(alloc, core.pool().batches())?;
    Ok(Some((all, joined)))
}

#[test]
fn events_tell_what_they_did(rt: HostRuntime) -> Result<(), Fail> {
    let s = Arc::new(rt.alloc(), counter(rt.alloc())?)?;
    let Some((told, joined)) = told(rt.alloc(), &s)? else {
        assert!(rt; false);
        return Ok(());
    };
    let want = [
        Short::Seen(0),
        Short::Seen(0),
        Short::Placed(0),
        Short::Placed(1),
        Short::Open,
        Short::Seen(2),
        Short::Refuted,
        Short::Stranger,
        Short::Stranger,
    ];
    assert!(rt; told.as_slice() == want.as_slice());
    let stand = [
        Joined {
            worker: 1,
            base: 0,
            len: 1,
        },
        Joined {
            worker: 0,
            base: 0,
            len: 1,
        },
    ];
    assert!(rt; joined.as_slice() == stand.as_slice());
    Ok(())
}
