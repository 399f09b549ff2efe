// Laws of multipliers and points.

ghost use Rattle.std.specs.Prelude.{ℕ, List, pos, ◌≤ℤ◌};
ghost use lib.IntN.{ℤ};
ghost use Rattle.chc_form.specs.declared.linear.Lin.{Lin};
ghost use Rattle.chc_form.specs.Linear.{Unsatisfiable, FracSatisfies, FracRefuted};
ghost use Rattle.chc_form.specs.Multipliers.{Refutes};

/// Multipliers that refute inequalities leave no fractions that satisfy them, and no whole numbers.
#[tactic(auto, using(crate::proofs::Farkas::refuting))]
pub fn refutation_law()
    ensures fractions { (ms : List ℤ) (rows : List Lin) → Refutes ms rows → FracRefuted rows }
    ensures whole { (ms : List ℤ) (rows : List Lin) → Refutes ms rows → Unsatisfiable rows }
{}

/// Inequalities that a point satisfies are not refuted.
#[tactic(auto, using(crate::proofs::Farkas::satisfying))]
pub fn point_law()
    ensures { (rows : List Lin) (x : ℕ → ℤ) (d : ℤ) → FracSatisfies rows x d → pos 1 ≤ℤ d → FracRefuted rows → ⊥ }
{}
