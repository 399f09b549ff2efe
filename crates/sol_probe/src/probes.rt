// All probes of a program.

ghost use Rattle.std.specs.Prelude.{◌≡◌, ◌++◌, take, IfOk, OnOk};
ghost use Rattle.std.specs.List.{flat_map};
ghost use Rattle.chc_nums.specs.declared.limits.TheConstants.{MAX_PROBES};
ghost use Rattle.sol_probe.specs.Filled.{filled};
ghost use Rattle.sol_probe.specs.Probes.{with_call, with_calls, probes};

use crate::calls::{PlainCall, calls};
use crate::deployments::deployments;
use chc_nums::{List, MAX_PROBES, NoMemory};
use sol_core::{Call, Program, Script};
use sqlite_items::Items;
use std::alloc::Global;

/// The probes of a program, at most 4,096.
#[tactic(auto, using(std::proofs::lemmas::Grind::common_steps, crate::proofs::Choosing::probes_made))]
pub fn probes(alloc: Global, p: &Program) -> Result<List<Script>, NoMemory>
    ensures { IfOk result (λ all. all ≡ probes p.now) }
{
    let alone = deployments(alloc, p)?;
    let calls = calls(alloc, p)?;
    let called = called(alloc, alone.as_slice(), calls.as_slice())?;
    joined(alone, called)
}

fn joined(first: List<Script>, second: List<Script>) -> Result<List<Script>, NoMemory>
    ensures { IfOk result (λ all. all ≡ take MAX_PROBES (first ++ second)) }
{
    let mut all = first.into_vec();
    let mut more = second.into_vec();
    all.append(&mut more)?;
    all.truncate(MAX_PROBES);
    Ok(List::from_vec(all))
}

#[tactic(auto, using(std::proofs::lemmas::Grind::common_steps, crate::proofs::Filling::filling))]
fn called(alloc: Global, scripts: &[Script], calls: &[PlainCall]) -> Result<List<Script>, NoMemory>
    ensures { IfOk result (λ all. all ≡ take MAX_PROBES (flat_map (with_calls calls.now) scripts.now)) }
{
    let mut all = List::new(alloc);
    for script in scripts {
        add_called(alloc, &mut all, script, calls)?;
    }
    Ok(all)
}

#[tactic(auto, using(std::proofs::lemmas::Grind::common_steps, crate::proofs::Filling::filling))]
fn add_called(
    alloc: Global,
    all: &mut List<Script>,
    script: &Script,
    calls: &[PlainCall],
) -> Result<(), NoMemory>
    ensures { OnOk result (all.new ≡ filled all.old (with_calls calls.now script.now)) }
{
    for call in calls {
        if all.len() >= MAX_PROBES {
            return Ok(());
        }
        all.push(with_call(alloc, script, call)?)?;
    }
    Ok(())
}

fn with_call(alloc: Global, s: &Script, c: &PlainCall) -> Result<Script, NoMemory>
    ensures { IfOk result (λ t. t ≡ with_call s.now c.now) }
{
    let call = Call {
        fun: c.door,
        sender: c.sender,
        args: c.args.copy(alloc)?,
        replies: Items::from_vec(Vec::new(alloc)),
    };
    let mut calls = List::new(alloc);
    calls.push(call)?;
    Ok(Script {
        sender: s.sender,
        args: s.args.copy(alloc)?,
        calls,
    })
}
