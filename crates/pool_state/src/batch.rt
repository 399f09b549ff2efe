// Lemmas that were shown relative to a base.

ghost use Rattle.std.specs.Prelude.{◌≡◌, ◌≤◌, ◌-◌, length, true, drop};
ghost use Rattle.std.specs.Arc.{arc_value};
ghost use Rattle.std.specs.List.{list_all};
ghost use Rattle.chc_nums.specs.declared.limits.TheConstants.{MAX_LEMMAS};
ghost use Rattle.chc_form.specs.WellMade.{well_made, of_system};
ghost use Rattle.chc_reduce.specs.Obligations.{for_lemmas, obligations};
ghost use Rattle.pool_state.specs.Content.{IsBatch};
ghost use Rattle.pool_state.specs.Unproved.{unproved};
ghost use Rattle.pool_state.specs.Tested.{LeavesOpen};

use crate::fault::BatchFault;
use crate::obligations::test_lemmas;
use chc_form::{Lemma, System};
use chc_nums::List;
use std::alloc::Global;
use std::marker::Model;
use std::sync::Arc;

/// Lemmas of a system, and the base under which each was shown at each rule.
#[derive(Drop)]
pub struct Batch {
    system: Arc<System>,
    base: Vec<Lemma>,
    lemmas: Vec<Lemma>,
}

impl Model for Batch {
    ghost use Rattle.std.specs.Arc.{arc_value};
    ghost use Rattle.pool_state.specs.Content.{Batched, IsBatch};

    ghost Value = { Batched };

    ghost view = { λ a. record { system = arc_value a.system; base = a.base.items; lemmas = a.lemmas.items } };

    ghost invariant = { λ a. IsBatch (record { system = arc_value a.system; base = a.base.items; lemmas = a.lemmas.items }) };
}

impl Batch {
    /// A batch of lemmas whose proofs pass, one for each lemma in order and each rule in order whose head is on its
    /// predicate, under the base and all of the lemmas. Further proofs are not looked at.
    pub fn new(
        alloc: Global,
        s: &Arc<System>,
        base: Vec<Lemma>,
        lemmas: Vec<Lemma>,
        proofs: Vec<List<i128>>,
    ) -> Result<Batch, BatchFault>
        requires made { well_made (arc_value s.now) ≡ true }
        requires base_of { list_all (of_system (arc_value s.now)) base.items ≡ true }
        requires lemmas_of { list_all (of_system (arc_value s.now)) lemmas.items ≡ true }
        requires some { 1 ≤ length lemmas.items }
        requires few { length lemmas.items ≤ MAX_LEMMAS }
        ensures { LeavesOpen (unproved (obligations (arc_value s.now) base.items lemmas.items) proofs.items) (λ b. b ≡ record { system = arc_value s.now; base = base.items; lemmas = lemmas.items }) result }
    {
        let had = base.len();
        let mut have = base;
        let mut added = lemmas;
        have.append(&mut added)?;
        test_batch(alloc, s, have.as_slice(), had, proofs.as_slice())?;
        let lemmas = have.split_off(had)?;
        let system = Arc::try_clone(s)?;
        Ok(Batch {
            system,
            base: have,
            lemmas,
        })
    }

    // The parts of the batch.
    pub(crate) fn into_parts(self) -> (Arc<System>, Vec<Lemma>, Vec<Lemma>)
        ensures is { self ≡ record { system = arc_value result.0; base = result.1.items; lemmas = result.2.items } }
        ensures keeps { IsBatch self }
    {
        let Batch {
            system,
            base,
            lemmas,
        } = self;
        (system, base, lemmas)
    }

    // The batch of such parts.
    pub(crate) fn from_parts(system: Arc<System>, base: Vec<Lemma>, lemmas: Vec<Lemma>) -> Batch
        requires { IsBatch (record { system = arc_value system; base = base.items; lemmas = lemmas.items }) }
        ensures { result ≡ record { system = arc_value system; base = base.items; lemmas = lemmas.items } }
    {
        Batch {
            system,
            base,
            lemmas,
        }
    }

    /// The system, to read.
    pub fn system(&self) -> &Arc<System>
        ensures is { arc_value result.now ≡ self.now.system }
        ensures keeps { IsBatch self.now }
    {
        &self.system
    }

    /// The base, to read.
    pub fn base(&self) -> &[Lemma]
        ensures is { result.now ≡ self.now.base }
        ensures keeps { IsBatch self.now }
    {
        self.base.as_slice()
    }

    /// The lemmas, to read.
    pub fn lemmas(&self) -> &[Lemma]
        ensures is { result.now ≡ self.now.lemmas }
        ensures keeps { IsBatch self.now }
    {
        self.lemmas.as_slice()
    }
}

// Whether the proofs show the lemmas past the first ones, which are had as the base.
#[tactic(auto, using(crate::proofs::Testing::unproving))]
fn test_batch(
    alloc: Global,
    s: &System,
    have: &[Lemma],
    had: usize,
    proofs: &[List<i128>],
) -> Result<(), BatchFault>
    requires made { well_made s.now ≡ true }
    requires base { had ≤ length have.now }
    requires few { length have.now - had ≤ MAX_LEMMAS }
    ensures { LeavesOpen (unproved (for_lemmas s.now have.now 0 (drop had have.now)) proofs.now) (λ _. Unit {0}) result }
{
    match test_lemmas(alloc, s, have, &have[had..], proofs) {
        Ok(_) => Ok(()),
        Err(fault) => Err(fault),
    }
}
