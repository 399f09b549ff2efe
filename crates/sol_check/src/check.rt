// From a contract to its report.

ghost use Rattle.std.specs.Prelude.{◌≡◌, ◌<◌, ◌^◌, length, true, IfOk, IsTrue};
ghost use Rattle.std.specs.Arc.{arc_value};
ghost use Rattle.chc_form.specs.WellMade.{well_made};
ghost use Rattle.sol_eval.specs.Sized.{is_sized};
ghost use Rattle.sol_first.specs.Typed.{IsTyped};
ghost use Rattle.sol_check.specs.Reports.{IsReportOf};
ghost use Rattle.sol_check.specs.Found.{IsGreatest, IsReported};

use crate::judge::{LIMITS, judge};
use crate::pool::first_pool;
use chc_encode::encode;
use chc_form::System;
use chc_houdini::{Greatest, greatest_of};
use chc_nums::NoMemory;
use chc_templates::candidates;
use sol_core::Program;
use sol_first::{Contract, program};
use sol_report::Report;
use std::alloc::Global;
use std::sync::Arc;

// What a program, its rules and the lemmas that the rounds kept give.
#[tactic(auto, using(crate::proofs::Standing::founds, crate::proofs::Proofs::greatests))]
fn reported(
    alloc: Global,
    program: Program,
    system: Arc<System>,
    greatest: Greatest,
) -> Result<Report, NoMemory>
    requires sized { IsTrue (is_sized program) }
    requires few { length program.sites < 2 ^ 32 }
    requires well { well_made (arc_value system) ≡ true }
    requires kept { IsGreatest (arc_value system) greatest }
    ensures { IfOk result (λ r. IsReported program (arc_value system) r) }
{
    let Greatest {
        lemmas,
        proofs,
        drops,
        ..
    } = greatest;
    let pool = first_pool(alloc, &system, lemmas, proofs)?;
    let verdicts = judge(alloc, &program, &system, drops.as_slice(), pool.lemmas())?;
    Ok(Report {
        program,
        system,
        pool,
        drops,
        verdicts,
    })
}

/// The report of a contract: its program and rules, the lemmas that the template rounds keep, and a verdict on each
/// target. `NoMemory` also stands for what the calls below it say.
#[tactic(auto, using(crate::proofs::Standing::founds, crate::proofs::Proofs::counts, crate::proofs::Sizes::program_sized))]
pub fn check_contract(alloc: Global, contract: &Contract) -> Result<Report, NoMemory>
    requires { IsTyped contract.now }
    ensures { IfOk result (λ r. IsReportOf contract.now r) }
{
    let program = program(alloc, contract)?;
    let system = encode(alloc, contract)?;
    let from = candidates(alloc, &system)?;
    let greatest = greatest_of(alloc, &system, from, LIMITS)?;
    reported(alloc, program, Arc::new(alloc, system)?, greatest)
}
