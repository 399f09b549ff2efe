// Deployments alone.

ghost use Rattle.std.specs.Prelude.{◌≡◌, take, IfOk, OnOk};
ghost use Rattle.chc_nums.specs.declared.limits.TheConstants.{MAX_PROBES};
ghost use Rattle.sol_probe.specs.Filled.{filled};
ghost use Rattle.sol_probe.specs.Probes.{deployed_by, deployments};

use crate::choices::choices;
use chc_nums::{List, MAX_PROBES, NoMemory};
use sol_core::{Program, Script};
use std::alloc::Global;

/// The first deployments of a program.
#[tactic(auto, using(std::proofs::lemmas::Grind::common_steps, crate::proofs::Choosing::deployments_made))]
pub fn deployments(alloc: Global, p: &Program) -> Result<List<Script>, NoMemory>
    ensures { IfOk result (λ all. all ≡ take MAX_PROBES (deployments p.now)) }
{
    let args = choices(alloc, p.params.as_slice())?;
    let mut all = List::new(alloc);
    add_deployments(alloc, &mut all, &1, args.as_slice())?;
    add_deployments(alloc, &mut all, &2, args.as_slice())?;
    Ok(all)
}

#[tactic(auto, using(std::proofs::lemmas::Grind::common_steps, crate::proofs::Filling::filling))]
fn add_deployments(
    alloc: Global,
    all: &mut List<Script>,
    sender: &i128,
    choices: &[List<i128>],
) -> Result<(), NoMemory>
    ensures { OnOk result (all.new ≡ filled all.old (deployed_by choices.now sender.now)) }
{
    for args in choices {
        if all.len() >= MAX_PROBES {
            return Ok(());
        }
        let args = args.copy(alloc)?;
        all.push(Script {
            sender: *sender,
            args,
            calls: List::new(alloc),
        })?;
    }
    Ok(())
}
