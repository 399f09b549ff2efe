// A law of the run.

ghost use Rattle.std.specs.Prelude.{◌≡◌, ℕ, List};
ghost use lib.IntN.{ℤ};
ghost use Rattle.chc_form.specs.declared.linear.Lin.{Lin};
ghost use Rattle.chc_form.specs.RowSums.{Summed};
ghost use Rattle.chc_simplex.specs.declared.data.Lp.TheVariants as lp;
ghost use Rattle.chc_simplex.specs.TableauRun.{tableau_run};

/// No sum over the rows, each times its multiplier, leaves 128 bits where the multipliers are those of a run.
pub fn sums_law()
    ensures { (ls : List Lin) (pivots : ℕ) (ms : List ℤ) → tableau_run ls pivots ≡ lp.Infeasible ms → Summed ms ls }
{}
