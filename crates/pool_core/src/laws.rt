// What every list of events keeps and brings.

ghost use Rattle.std.specs.Prelude.{◌≡◌, ℕ, ◌++◌, List, true, Some, slice_get};
ghost use Rattle.chc_form.specs.declared.system.System.{System};
ghost use Rattle.chc_form.specs.Solving.{Solves};
ghost use Rattle.chc_form.specs.WellMade.{well_made};
ghost use Rattle.pool_state.specs.Content.{Content};
ghost use Rattle.pool_state.specs.Items.{items_in};
ghost use Rattle.pool_core.specs.declared.events.Event.{Event};
ghost use Rattle.pool_core.specs.declared.events.Told.{Told};
ghost use Rattle.pool_core.specs.Core.{Core, IsFront, IsCore, beginning};
ghost use Rattle.pool_core.specs.Runs.{Runs, AreBatches, joins};

/// A core begins as one, and every list of events keeps it one. Its lemmas solve the rules, and so do those that a worker has
/// seen, which are a prefix of the pool. What events bring to the pool are the batches that were placed, in order, each by
/// its worker; and what a worker sees begins with what it had seen.
#[tactic(auto, using(crate::proofs::Keeping::keeping))]
pub fn core_law()
    ensures begins { (s : System) (n : ℕ) → well_made s ≡ true → IsCore (beginning s n) }
    ensures kept { (c d : Core) (es : List Event) (ts : List Told) → IsCore c → AreBatches es → Runs c es ts d → IsCore d }
    ensures solved { (c : Core) → IsCore c → Solves c.pool.system c.pool.lemmas }
    ensures seen { (c : Core) (k : ℕ) (had : Content) → IsCore c → slice_get c.seen k ≡ Some had → IsFront had c.pool × Solves had.system had.lemmas }
    ensures brought { (c d : Core) (es : List Event) (ts : List Told) → IsCore c → AreBatches es → Runs c es ts d → items_in d.pool ≡ items_in c.pool ++ joins es ts }
    ensures longer { (c d : Core) (es : List Event) (ts : List Told) (k : ℕ) (had has : Content) → IsCore c → AreBatches es → Runs c es ts d → slice_get c.seen k ≡ Some had → slice_get d.seen k ≡ Some has → IsFront had has }
{}
