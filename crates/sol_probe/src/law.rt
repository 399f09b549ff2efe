// What holds of every probe.

ghost use Rattle.std.specs.List.{Contains};
ghost use Rattle.sol_core.specs.declared.Program.{Program};
ghost use Rattle.sol_core.specs.declared.Script.{Script};
ghost use Rattle.sol_core.specs.Fits.{Fits};
ghost use Rattle.sol_probe.specs.Probes.{probes};

/// Each probe of a program fits it.
#[tactic(auto, using(crate::proofs::Fitting::probes_fit))]
pub fn probe_law()
    ensures { (p : Program) (s : Script) → Contains (probes p) s → Fits p s }
{}
