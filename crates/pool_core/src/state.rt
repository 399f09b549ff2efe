// The core's state, and its steps.

ghost use Rattle.std.specs.Prelude.{◌≡◌, ◌<◌, ◌↔◌, true, length, slice_get, IfOk, IfSome, IsSomeAnd, IsTrue, Some, None};
ghost use Rattle.std.specs.Arc.{arc_value};
ghost use Rattle.chc_form.specs.declared.system.Part.TheVariants as part;
ghost use Rattle.chc_form.specs.WellMade.{well_made};
ghost use Rattle.chc_reduce.specs.Reduced.{reduced};
ghost use Rattle.chc_ask.specs.Asked.{asked_of};
ghost use Rattle.pool_state.specs.Content.{Fits};
ghost use Rattle.pool_core.specs.Core.{Core, beginning, IsCore};
ghost use Rattle.pool_core.specs.Steps.{limits, looked, HasPublished, IsInRange, HasStepped};

use crate::alike::Alike;
use crate::events::{Event, Told};
use crate::fitting::starts_with;
use crate::marks::{Mark, starts};
use chc_ask::{Asked, ask};
use chc_form::{Lemma, Limits, Part, System};
use chc_nums::{MAX_NODES, MAX_PIVOTS, NoMemory};
use pool_state::{Batch, Pool};
use std::alloc::Global;
use std::marker::Model;
use std::sync::Arc;

// How far each question goes.
const LIMITS: Limits = Limits {
    pivots: MAX_PIVOTS,
    nodes: MAX_NODES,
};

/// A pool, and what each worker has seen of it.
#[derive(Drop)]
pub struct PoolCore {
    pool: Pool,
    seen: Vec<Mark>,
}

impl Model for PoolCore {
    ghost use Rattle.pool_core.specs.Core.{Core};
    ghost use Rattle.pool_core.specs.Marks.{core_of, AreMarks};

    ghost Value = { Core };

    ghost view = { λ a. core_of a.pool a.seen.items };

    ghost invariant = { λ a. AreMarks a.pool a.seen.items };
}

impl PoolCore {
    /// The empty pool of a system, of which so many workers have seen nothing.
    #[tactic(auto, using(crate::proofs::Marking::starting))]
    pub fn new(alloc: Global, s: Arc<System>, workers: u32) -> Result<PoolCore, NoMemory>
        requires { well_made (arc_value s) ≡ true }
        ensures { IfOk result (λ c. c ≡ beginning (arc_value s) workers) }
    {
        let pool = Pool::new(alloc, s)?;
        let seen = starts(alloc, workers)?;
        Ok(PoolCore { pool, seen })
    }

    /// The pool, to read.
    pub fn pool(&self) -> &Pool
        ensures is { result.now ≡ self.now.pool }
        ensures keeps { IsCore self.now }
    {
        let _count = self.pool.batches().len();
        &self.pool
    }

    /// The lemmas that a worker has seen, to read.
    pub fn seen(&self, worker: u32) -> &[Lemma]
        requires { worker < length self.now.seen }
        ensures { IsSomeAnd (slice_get self.now.seen worker) (λ had. result.now ≡ had.lemmas) }
    {
        &self.pool.lemmas()[..self.seen[worker as usize].lemmas]
    }

    /// Whether there are such a worker and such a query.
    pub fn is_in_range(&self, e: &Event) -> bool
        ensures { IsTrue result ↔ IsInRange self.now e.now }
    {
        match e {
            Event::Look { worker } | Event::Publish { worker, .. } => {
                (*worker as usize) < self.seen.len()
            }
            Event::Answer { worker, target } => {
                (*worker as usize) < self.seen.len()
                    && (*target as usize) < self.pool.system().queries.len()
            }
        }
    }

    // A look: the number of lemmas.
    fn look(&mut self, worker: u32) -> u64
        requires { worker < length self.old.seen }
        ensures len { result ≡ length self.old.pool.lemmas }
        ensures new { self.new ≡ looked self.old worker }
    {
        let mark = Mark {
            batches: self.pool.batches().len(),
            lemmas: self.pool.lemmas().len(),
        };
        self.seen[worker as usize] = mark;
        mark.lemmas as u64
    }

    // Whether a batch fits what a worker has seen.
    fn fits(&self, worker: u32, batch: &Batch) -> bool
        requires { worker < length self.now.seen }
        ensures { IsSomeAnd (slice_get self.now.seen worker) (λ had. IsTrue result ↔ Fits had batch.now) }
    {
        self.pool.system().is_alike(batch.system()) && starts_with(self.seen(worker), batch.base())
    }

    // A publication.
    fn publish(&mut self, worker: u32, batch: Batch) -> Result<Told, (Batch, NoMemory)>
        requires { worker < length self.old.seen }
        ensures { HasPublished self.old worker batch self.new result }
    {
        if !self.fits(worker, &batch) {
            return Ok(Told::Stranger { batch });
        }
        let at = self.pool.batches().len() as u64;
        match self.pool.append(worker, batch) {
            Ok(()) => Ok(Told::Placed { at }),
            Err(back) => Err(back),
        }
    }

    // A question.
    fn answer(&self, alloc: Global, worker: u32, target: u32) -> Result<Asked, NoMemory>
        requires { worker < length self.now.seen }
        ensures { IfOk result (λ a. IsSomeAnd (slice_get self.now.seen worker) (λ had. a ≡ asked_of limits (reduced self.now.pool.system (part.Query target) None had.lemmas))) }
    {
        let system: &System = self.pool.system();
        ask(
            alloc,
            system,
            Part::Query(target),
            None,
            self.seen(worker),
            LIMITS,
        )
    }

    /// Does one event, and tells what came of it. Without memory nothing has changed, and the event is handed back; a look
    /// wants none.
    pub fn step(&mut self, alloc: Global, e: Event) -> Result<Told, (Event, NoMemory)>
        requires { IsInRange self.old e }
        ensures { HasStepped self.old e self.new result }
    {
        match e {
            Event::Look { worker } => Ok(Told::Seen {
                len: self.look(worker),
            }),
            Event::Publish { worker, batch } => match self.publish(worker, batch) {
                Ok(told) => Ok(told),
                Err((batch, e)) => Err((Event::Publish { worker, batch }, e)),
            },
            Event::Answer { worker, target } => match self.answer(alloc, worker, target) {
                Ok(asked) => Ok(Told::Asked(asked)),
                Err(e) => Err((Event::Answer { worker, target }, e)),
            },
        }
    }
}
