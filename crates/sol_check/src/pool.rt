// The pool at first: the template lemmas that were kept, as one batch.

ghost use Rattle.std.specs.Prelude.{◌≡◌, ◌≤◌, [], true, length, None, IfOk};
ghost use Rattle.std.specs.List.{list_all};
ghost use Rattle.std.specs.Arc.{arc_value};
ghost use Rattle.chc_nums.specs.declared.limits.TheConstants.{MAX_LEMMAS};
ghost use Rattle.chc_form.specs.WellMade.{well_made, of_system};
ghost use Rattle.chc_reduce.specs.Obligations.{obligations};
ghost use Rattle.pool_state.specs.Unproved.{unproved};
ghost use Rattle.pool_state.specs.Content.{Fits, joined_to};
ghost use Rattle.sol_check.specs.Reports.{first_content};

use chc_form::{Lemma, System};
use chc_nums::{List, NoMemory};
use pool_state::{Batch, BatchFault, Pool};
use std::alloc::Global;
use std::sync::Arc;

// The lemmas as a batch over none. Their proofs pass, so they are not refused.
fn batch(
    alloc: Global,
    s: &Arc<System>,
    lemmas: List<Lemma>,
    proofs: List<List<i128>>,
) -> Result<Batch, NoMemory>
    requires well { well_made (arc_value s.now) ≡ true }
    requires of { list_all (of_system (arc_value s.now)) lemmas ≡ true }
    requires some { 1 ≤ length lemmas }
    requires few { length lemmas ≤ MAX_LEMMAS }
    requires proofs { unproved (obligations (arc_value s.now) [] lemmas) proofs ≡ None }
    ensures { IfOk result (λ b. b ≡ record { system = arc_value s.now; base = []; lemmas = lemmas }) }
{
    match Batch::new(
        alloc,
        s,
        Vec::new(alloc),
        lemmas.into_vec(),
        proofs.into_vec(),
    ) {
        Ok(batch) => Ok(batch),
        Err(BatchFault::Unproved { .. }) => {
            prove!(false);
            Err(NoMemory)
        }
        Err(BatchFault::NoMemory) => Err(NoMemory),
    }
}

// A pool with one batch more.
fn joined(pool: Pool, batch: Batch) -> Result<Pool, NoMemory>
    requires { Fits pool batch }
    ensures { IfOk result (λ p. p ≡ joined_to pool 0 batch) }
{
    let mut pool = pool;
    match pool.append(0, batch) {
        Ok(()) => Ok(pool),
        Err(_) => Err(NoMemory),
    }
}

/// The pool of a system in which these lemmas are the one batch; where there are none, it has no batch.
#[tactic(auto, using(crate::proofs::Pools::pools))]
pub fn first_pool(
    alloc: Global,
    s: &Arc<System>,
    lemmas: List<Lemma>,
    proofs: List<List<i128>>,
) -> Result<Pool, NoMemory>
    requires well { well_made (arc_value s.now) ≡ true }
    requires of { list_all (of_system (arc_value s.now)) lemmas ≡ true }
    requires few { length lemmas ≤ MAX_LEMMAS }
    requires proofs { unproved (obligations (arc_value s.now) [] lemmas) proofs ≡ None }
    ensures { IfOk result (λ p. p ≡ first_content (arc_value s.now) lemmas) }
{
    let pool = Pool::new(alloc, Arc::try_clone(s)?)?;
    if lemmas.is_empty() {
        return Ok(pool);
    }
    let batch = batch(alloc, s, lemmas, proofs)?;
    joined(pool, batch)
}
