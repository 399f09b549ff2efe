// What the candidates are.

ghost use Rattle.std.specs.Prelude.{◌≡◌, ◌≤◌, [], length, true};
ghost use Rattle.std.specs.List.{list_all, All};
ghost use Rattle.chc_nums.specs.declared.limits.TheConstants.{MAX_CANDIDATES};
ghost use Rattle.chc_form.specs.declared.system.System.{System};
ghost use Rattle.chc_form.specs.WellMade.{well_made, of_system};
ghost use Rattle.chc_templates.specs.Candidates.{candidates_of};

/// Each candidate is a lemma of the system, with no bound keys and one literal, and there are at most 1,024.
pub fn candidate_law()
    ensures of { (s : System) → well_made s ≡ true → list_all (of_system s) (candidates_of s) ≡ true }
    ensures few { (s : System) → length (candidates_of s) ≤ MAX_CANDIDATES }
    ensures plain { (s : System) → All (λ l. (l.keys ≡ []) × (length l.lits ≡ 1)) (candidates_of s) }
{}
