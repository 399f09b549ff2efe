// Laws of formulas.

ghost use Rattle.std.specs.Prelude.{◌≡◌, ◌+ℤ◌, ◌*ℤ◌, ℕ, List, map, not, pos};
ghost use Rattle.std.specs.List.{list_all, list_any};
ghost use lib.IntN.{ℤ};
ghost use lib.Signed.{lt_z};
ghost use Rattle.chc_form.specs.declared.linear.Lin.{Lin};
ghost use Rattle.chc_form.specs.declared.formula.Formula.{Formula, Le, And, Or};
ghost use Rattle.chc_form.specs.Linear.{sum_of};
ghost use Rattle.chc_form.specs.Formulas.{frac_true};

/// At fractions, a sum is true where it is at most 0, an `And` where all its formulas are, and an `Or` where one is.
#[tactic(auto, using(crate::proofs::Truths::truths))]
pub fn formula_law()
    ensures sums { (x : ℕ → ℤ) (d : ℤ) (l : Lin) → frac_true x d (Le l) ≡ not (lt_z (pos 0) (sum_of l.terms x +ℤ (l.konst *ℤ d))) }
    ensures all { (x : ℕ → ℤ) (d : ℤ) (fs : List Formula) → frac_true x d (And fs) ≡ list_all (λ b. b) (map (frac_true x d) fs) }
    ensures one { (x : ℕ → ℤ) (d : ℤ) (fs : List Formula) → frac_true x d (Or fs) ≡ list_any (λ b. b) (map (frac_true x d) fs) }
{}
