// What proofs show.

ghost use Rattle.std.specs.Prelude.{◌≡◌, List, None, true};
ghost use lib.IntN.{ℤ};
ghost use Rattle.chc_form.specs.declared.system.System.{System};
ghost use Rattle.chc_form.specs.declared.lemma.Lemma.{Lemma};
ghost use Rattle.chc_form.specs.Solving.{Relative};
ghost use Rattle.chc_form.specs.WellMade.{well_made};
ghost use Rattle.chc_reduce.specs.Obligations.{obligations};
ghost use Rattle.pool_state.specs.Unproved.{unproved};

/// Where proofs leave no obligation of a batch open, the batch is relative to its base.
pub fn proof_law()
    ensures { (s : System) (base batch : List Lemma) (proofs : List (List ℤ)) → well_made s ≡ true → unproved (obligations s base batch) proofs ≡ None → Relative s base batch }
{}
