// Laws of formulas and their rows.

ghost use Rattle.std.specs.Prelude.{◌≡◌, ℕ, List, Option, Some, None, true, slice_get};
ghost use Rattle.chc_form.specs.declared.formula.Formula.{Formula};
ghost use Rattle.chc_form.specs.declared.system.Rule.{Rule};
ghost use Rattle.chc_form.specs.declared.system.Query.{Query};
ghost use Rattle.chc_form.specs.declared.system.System.{System};
ghost use Rattle.chc_form.specs.declared.system.Part.{Part};
ghost use Rattle.chc_form.specs.declared.system.Part.TheVariants as part;
ghost use Rattle.chc_form.specs.declared.lemma.Lemma.{Lemma};
ghost use Rattle.chc_form.specs.Linear.{FracRefuted, AllAscend};
ghost use Rattle.chc_form.specs.Formulas.{TrueAt, FormulaRefuted};
ghost use Rattle.chc_form.specs.Valuations.{Valuation, at_atom};
ghost use Rattle.chc_form.specs.Lemmas.{LemmaAt};
ghost use Rattle.chc_form.specs.Solving.{BodyHolds, QueryHolds};
ghost use Rattle.chc_form.specs.WellMade.{well_made};
ghost use Rattle.chc_reduce.specs.Reduced.{reduced};
ghost use Rattle.chc_reduce.specs.Rows.{rows_of, is_plain};

/// Where values make a rule's constraints true, its body holds under lemmas at them, and a lemma is false at the head,
/// the values of the variables make the formula true; and so where a query holds. So a refuted formula shows the lemma
/// at the head, and that the query does not hold.
#[tactic(auto, using(crate::proofs::Truthful::reductions))]
pub fn reduction_law()
    ensures rules { (s : System) (i : ℕ) (r : Rule) (goal : Lemma) (ls : List Lemma) (v : Valuation) → slice_get s.rules i ≡ Some r → BodyHolds ls r v → (LemmaAt (at_atom v r.head) goal → ⊥) → TrueAt v.number (reduced s (part.Rule i) (Some goal) ls) }
    ensures queries { (s : System) (i : ℕ) (q : Query) (ls : List Lemma) (v : Valuation) → slice_get s.queries i ≡ Some q → QueryHolds ls q v → TrueAt v.number (reduced s (part.Query i) None ls) }
    ensures refuted_rules { (s : System) (i : ℕ) (r : Rule) (goal : Lemma) (ls : List Lemma) (v : Valuation) → slice_get s.rules i ≡ Some r → BodyHolds ls r v → FormulaRefuted (reduced s (part.Rule i) (Some goal) ls) → LemmaAt (at_atom v r.head) goal }
    ensures refuted_queries { (s : System) (i : ℕ) (q : Query) (ls : List Lemma) (v : Valuation) → slice_get s.queries i ≡ Some q → QueryHolds ls q v → FormulaRefuted (reduced s (part.Query i) None ls) → ⊥ }
{}

/// The rows of a formula say no more than the formula, and no less where it has no choice.
#[tactic(auto, using(crate::proofs::Satisfying::refuting))]
pub fn rows_law()
    ensures refuted { (f : Formula) → FracRefuted (rows_of f) → FormulaRefuted f }
    ensures plain { (f : Formula) → is_plain f ≡ true → FormulaRefuted f → FracRefuted (rows_of f) }
{}

/// Each row of a formula from a system that is well made is in order.
#[tactic(auto, using(crate::proofs::Ordered::orders))]
pub fn order_law()
    ensures { (s : System) (p : Part) (goal : Option Lemma) (ls : List Lemma) → well_made s ≡ true → AllAscend (rows_of (reduced s p goal ls)) }
{}
