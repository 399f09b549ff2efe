// The lemmas of a system, as batches bring them.

ghost use Rattle.std.specs.Prelude.{◌≡◌, ◌≤◌, ◌<◌, ◌^◌, ◌∷◌, ◌++◌, [], true, length, drop, is_ok, IfOk, if◌then◌else◌};
ghost use Rattle.std.specs.Arc.{arc_value};
ghost use Rattle.chc_form.specs.Solving.{Solves};
ghost use Rattle.chc_form.specs.WellMade.{well_made};
ghost use Rattle.pool_state.specs.Content.{Fits, IsPool, Appends};

use crate::batch::Batch;
use crate::joined::Joined;
use chc_form::{Lemma, System};
use chc_nums::NoMemory;
use std::alloc::Global;
use std::marker::Model;
use std::sync::Arc;

/// Lemmas that solve the rules of a system, and the batches by which they came.
#[derive(Drop)]
pub struct Pool {
    system: Arc<System>,
    batches: Vec<Joined>,
    lemmas: Vec<Lemma>,
}

impl Model for Pool {
    ghost use Rattle.std.specs.Arc.{arc_value};
    ghost use Rattle.pool_state.specs.Content.{Content, IsPool};

    ghost Value = { Content };

    ghost view = { λ a. record { system = arc_value a.system; batches = a.batches.items; lemmas = a.lemmas.items } };

    ghost invariant = { λ a. IsPool (record { system = arc_value a.system; batches = a.batches.items; lemmas = a.lemmas.items }) };
}

impl Pool {
    /// The pool of a system with no lemmas. It takes no memory.
    #[tactic(auto, using(crate::proofs::Growing::growing))]
    pub fn new(alloc: Global, s: Arc<System>) -> Result<Pool, NoMemory>
        requires { well_made (arc_value s) ≡ true }
        ensures { result ≡ Ok (record { system = arc_value s; batches = []; lemmas = [] }) }
    {
        Ok(Pool {
            system: s,
            batches: Vec::new(alloc),
            lemmas: Vec::new(alloc),
        })
    }

    /// The system, to read.
    pub fn system(&self) -> &Arc<System>
        ensures is { arc_value result.now ≡ self.now.system }
        ensures keeps { IsPool self.now }
    {
        &self.system
    }

    /// The batches that joined, in order.
    pub fn batches(&self) -> &[Joined]
        ensures is { result.now ≡ self.now.batches }
        ensures keeps { IsPool self.now }
    {
        self.batches.as_slice()
    }

    /// The lemmas, in the order in which they came. They solve the rules of the system.
    #[tactic(auto, using(crate::proofs::Growing::growing))]
    pub fn lemmas(&self) -> &[Lemma]
        ensures is { result.now ≡ self.now.lemmas }
        ensures keeps { IsPool self.now }
        ensures solves { Solves self.now.system self.now.lemmas }
    {
        self.lemmas.as_slice()
    }

    // What every pool keeps.
    pub(crate) fn kept(&self)
        ensures pool { IsPool self.now }
        ensures few { length self.now.batches < 2 ^ 63 }
    {
        let _count = self.batches.len();
    }

    // Copies of the lemmas from a place on.
    pub(crate) fn copies_from(&self, at: usize) -> Result<Vec<Lemma>, NoMemory>
        requires { at ≤ length self.now.lemmas }
        ensures { IfOk result (λ ls. ls.items ≡ drop at self.now.lemmas) }
    {
        let alloc = *self.lemmas.allocator();
        let mut copies = Vec::new(alloc);
        for lemma in &self.lemmas[at..] {
            copies.push(lemma.copy(alloc)?)?;
        }
        Ok(copies)
    }

    /// The batch joins, in the name of a worker, with no copy of a lemma. Without memory the pool stays as it was, and
    /// the batch is handed back.
    pub fn append(&mut self, by: u32, batch: Batch) -> Result<(), (Batch, NoMemory)>
        requires { Fits self.old batch }
        ensures { Appends self.old by batch self.new result }
    {
        let (system, base, lemmas) = batch.into_parts();
        let mut added = lemmas;
        let joined = Joined {
            worker: by,
            base: base.len() as u64,
            len: added.len() as u64,
        };
        match join(&mut self.batches, &mut self.lemmas, joined, &mut added) {
            Ok(()) => Ok(()),
            Err(e) => Err((Batch::from_parts(system, base, added), e)),
        }
    }
}

// A batch more, with its lemmas. Without memory all stays as it was.
fn join(
    batches: &mut Vec<Joined>,
    lemmas: &mut Vec<Lemma>,
    joined: Joined,
    added: &mut Vec<Lemma>,
) -> Result<(), NoMemory>
    ensures batches { batches.new.items ≡ (if is_ok result then batches.old.items ++ joined ∷ [] else batches.old.items) }
    ensures lemmas { lemmas.new.items ≡ (if is_ok result then lemmas.old.items ++ added.old.items else lemmas.old.items) }
    ensures added { added.new.items ≡ (if is_ok result then [] else added.old.items) }
{
    batches.push(joined)?;
    match lemmas.append(added) {
        Ok(()) => Ok(()),
        Err(e) => {
            batches.pop();
            Err(e.into())
        }
    }
}
