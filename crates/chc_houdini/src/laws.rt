// What is kept.

ghost use Rattle.std.specs.Prelude.{ℕ, ◌≤◌, List, length};
ghost use Rattle.std.specs.List.{Contains};
ghost use Rattle.chc_form.specs.declared.lemma.Lemma.{Lemma};
ghost use Rattle.chc_houdini.specs.declared.greatest.RoundStop.{RoundStop};
ghost use Rattle.chc_houdini.specs.Drops.{kept};

/// The lemmas that are kept are among the candidates, and no more than these.
#[tactic(auto, using(crate::proofs::Kept::keeping))]
pub fn kept_law()
    ensures contained { (drops : List RoundStop) (candidates : List Lemma) (l : Lemma) → Contains (kept drops candidates) l → Contains candidates l }
    ensures few { (drops : List RoundStop) (candidates : List Lemma) → length (kept drops candidates) ≤ length candidates }
{}
