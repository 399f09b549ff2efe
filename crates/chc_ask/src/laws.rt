// What answers say of formulas.

ghost use Rattle.std.specs.Prelude.{◌≡◌, ◌⊎◌, List};
ghost use lib.IntN.{ℤ};
ghost use Rattle.chc_form.specs.declared.linear.Limits.{Limits};
ghost use Rattle.chc_form.specs.declared.formula.Formula.{Formula};
ghost use Rattle.chc_form.specs.Linear.{AllAscend};
ghost use Rattle.chc_form.specs.Multipliers.{Refutes};
ghost use Rattle.chc_form.specs.Formulas.{FormulaRefuted};
ghost use Rattle.chc_reduce.specs.Rows.{rows_of};
ghost use Rattle.chc_ask.specs.declared.open.Open.{Open};
ghost use Rattle.chc_ask.specs.declared.open.Asked.TheVariants as asked;
ghost use Rattle.chc_ask.specs.Asked.{asked_of};
ghost use Rattle.chc_ask.specs.Open.{MeetsLimit, StaysOpen};

/// Of a formula whose rows are in order: multipliers that are answered refute its rows, and so the formula; one that is
/// left open stays open as is said, so it isn't refuted over fractions or meets a limit; and one that is refuted over
/// fractions and meets no limit is answered by multipliers.
#[tactic(auto, using(crate::proofs::Answers::answers))]
pub fn ask_law()
    ensures refuted { (l : Limits) (f : Formula) (ms : List ℤ) → AllAscend (rows_of f) → asked_of l f ≡ asked.Refuted ms → Refutes ms (rows_of f) × FormulaRefuted f }
    ensures left_open { (l : Limits) (f : Formula) (o : Open) → AllAscend (rows_of f) → asked_of l f ≡ asked.Open o → StaysOpen l f o }
    ensures cause { (l : Limits) (f : Formula) (o : Open) → StaysOpen l f o → (FormulaRefuted f → ⊥) ⊎ MeetsLimit l f }
    ensures complete { (l : Limits) (f : Formula) → AllAscend (rows_of f) → FormulaRefuted f → (MeetsLimit l f → ⊥) → (ms : List ℤ) × (asked_of l f ≡ asked.Refuted ms) }
{}
