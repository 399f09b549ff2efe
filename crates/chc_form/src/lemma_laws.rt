// Laws of lemmas that solve a system, and of systems that are well made.

ghost use Rattle.std.specs.Prelude.{◌≡◌, ℕ, List, ◌++◌, true};
ghost use Rattle.std.specs.List.{Contains, list_all};
ghost use Rattle.chc_form.specs.declared.lemma.Lemma.{Lemma};
ghost use Rattle.chc_form.specs.declared.system.Con.{Con};
ghost use Rattle.chc_form.specs.declared.system.Rule.{Rule};
ghost use Rattle.chc_form.specs.declared.system.Query.{Query};
ghost use Rattle.chc_form.specs.declared.system.System.{System};
ghost use Rattle.chc_form.specs.Linear.{AllAscend};
ghost use Rattle.chc_form.specs.Sums.{sums_of};
ghost use Rattle.chc_form.specs.Solving.{Solves, Refutes, Relative};
ghost use Rattle.chc_form.specs.Derivations.{Derivable};
ghost use Rattle.chc_form.specs.WellMade.{well_made, of_system};

/// Where lemmas solve a system, and a batch is relative to a prefix of them, the lemmas and the batch solve it.
pub fn joining_law()
    ensures { (s : System) (lemmas base more batch : List Lemma) → lemmas ≡ base ++ more → Solves s lemmas → Relative s base batch → Solves s (lemmas ++ batch) }
{}

/// Of a system that is well made, what is derived is not refuted by lemmas of the system that solve it.
pub fn derivation_law()
    ensures { (s : System) (t : ℕ) (lemmas : List Lemma) → well_made s ≡ true → list_all (of_system s) lemmas ≡ true → Derivable s t → Solves s lemmas → Refutes s t lemmas → ⊥ }
{}

/// Each sum of a system that is well made is in order: variables ascend, and no coefficient is 0.
pub fn order_law()
    ensures rules { (s : System) (r : Rule) (c : Con) → well_made s ≡ true → Contains s.rules r → Contains r.cons c → AllAscend (sums_of c) }
    ensures queries { (s : System) (q : Query) (c : Con) → well_made s ≡ true → Contains s.queries q → Contains q.cons c → AllAscend (sums_of c) }
{}
