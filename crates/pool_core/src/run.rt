// A list of events, one after another.

ghost use Rattle.std.specs.Prelude.{◌↔◌, IsTrue};
ghost use Rattle.pool_core.specs.Steps.{IsInRange};
ghost use Rattle.pool_core.specs.Runs.{AreInRange, RanTo, Adds};

use crate::events::{Event, Told};
use crate::state::PoolCore;
use chc_nums::NoMemory;
use std::alloc::Global;

// One event more, with what is told of it. Without memory all stays as it was.
fn step_on(
    core: &mut PoolCore,
    alloc: Global,
    e: Event,
    told: &mut Vec<Told>,
) -> Result<(), NoMemory>
    requires { IsInRange core.old e }
    ensures { Adds core.old e core.new told.old.items told.new.items result }
{
    told.reserve(1)?;
    match core.step(alloc, e) {
        Ok(t) => {
            told.push_reserved(t);
            Ok(())
        }
        Err((_, e)) => Err(e),
    }
}

/// Whether there are the worker and the query of each event.
pub fn are_in_range(core: &PoolCore, events: &[Event]) -> bool
    ensures { IsTrue result ↔ AreInRange core.now events.now }
{
    let mut rest = events;
    while let [e, more @ ..] = rest {
        if !core.is_in_range(e) {
            return false;
        }
        rest = more;
    }
    true
}

/// Does events in order, and tells what came of each. Without memory for one of them the core stands as after the events
/// before that one.
pub fn run_core(
    core: &mut PoolCore,
    alloc: Global,
    events: Vec<Event>,
) -> Result<Vec<Told>, NoMemory>
    requires { AreInRange core.old events.items }
    ensures { RanTo core.old events.items core.new result }
{
    let mut told = Vec::new(alloc);
    let mut left = events.into_iter();
    while let Some(e) = left.next() {
        match step_on(core, alloc, e, &mut told) {
            Ok(()) => {}
            Err(e) => return Err(e),
        }
    }
    left.destroy_empty();
    Ok(told)
}
