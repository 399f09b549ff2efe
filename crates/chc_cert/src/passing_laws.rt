// What it means that multipliers pass.

ghost use Rattle.std.specs.Prelude.{◌≡◌, List, true};
ghost use lib.IntN.{ℤ};
ghost use Rattle.chc_form.specs.declared.linear.Lin.{Lin};
ghost use Rattle.chc_form.specs.Multipliers.{Refutes};
ghost use Rattle.chc_form.specs.RowSums.{Summed};
ghost use Rattle.chc_cert.specs.Passing.{passes};

/// Multipliers that pass refute the rows, and those that refute the rows pass where no sum leaves 128 bits.
pub fn passing_law()
    ensures sound { (ms : List ℤ) (ls : List Lin) → passes ms ls ≡ true → Refutes ms ls }
    ensures complete { (ms : List ℤ) (ls : List Lin) → Refutes ms ls → Summed ms ls → passes ms ls ≡ true }
{}
