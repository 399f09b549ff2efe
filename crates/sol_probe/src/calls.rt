// Calls without replies.

ghost use Rattle.std.specs.Prelude.{◌≡◌, take, IfOk, OnOk, Some, slice_get};
ghost use Rattle.chc_nums.specs.declared.limits.TheConstants.{MAX_PROBES};
ghost use Rattle.sol_probe.specs.Filled.{filled};
ghost use Rattle.sol_probe.specs.Probes.{called_by, calls_of, calls};

use crate::choices::choices;
use chc_nums::{List, MAX_PROBES, NoMemory, Ty};
use sol_core::{Fun, Program};
use std::alloc::Global;

/// A call from outside without replies: the door, by its place in `doors`, the sender and the arguments.
#[derive(Drop)]
pub struct PlainCall {
    pub door: u32,
    pub sender: i128,
    pub args: List<i128>,
}

/// The first calls through a program's doors.
#[tactic(auto, using(std::proofs::lemmas::Grind::common_steps, crate::proofs::Filling::filling, crate::proofs::Choosing::calling))]
pub fn calls(alloc: Global, p: &Program) -> Result<List<PlainCall>, NoMemory>
    ensures { IfOk result (λ all. all ≡ take MAX_PROBES (calls p.now)) }
{
    let mut all = List::new(alloc);
    let mut door = 0u32;
    let mut rest = p.doors.as_slice();
    while let [f, more @ ..] = rest {
        add_calls_at(alloc, &mut all, door, p, *f)?;
        let Some(next) = door.checked_add(1) else {
            return Err(NoMemory);
        };
        door = next;
        rest = more;
    }
    Ok(all)
}

#[tactic(auto, using(std::proofs::lemmas::Grind::common_steps, crate::proofs::Filling::filling, crate::proofs::Choosing::calling))]
fn add_calls_at(
    alloc: Global,
    all: &mut List<PlainCall>,
    door: u32,
    p: &Program,
    f: u32,
) -> Result<(), NoMemory>
    ensures { OnOk result (all.new ≡ filled all.old (calls_of door (slice_get p.now.funs f))) }
{
    match p.funs.get(f as usize) {
        Some(fun) => add_calls_of(alloc, all, door, fun),
        None => Ok(()),
    }
}

#[tactic(auto, using(std::proofs::lemmas::Grind::common_steps, crate::proofs::Filling::filling, crate::proofs::Choosing::calling))]
fn add_calls_of(
    alloc: Global,
    all: &mut List<PlainCall>,
    door: u32,
    fun: &Fun,
) -> Result<(), NoMemory>
    ensures { OnOk result (all.new ≡ filled all.old (calls_of door (Some fun.now))) }
{
    if all.len() >= MAX_PROBES {
        return Ok(());
    }
    let args = choices(alloc, parameters(fun))?;
    add_calls(alloc, all, door, &1, args.as_slice())?;
    add_calls(alloc, all, door, &2, args.as_slice())
}

fn parameters(fun: &Fun) -> &[Ty]
    ensures { result.now ≡ take fun.now.params fun.now.locals }
{
    let count = fun.params as usize;
    let all = fun.locals.as_slice();
    if count >= all.len() {
        return all;
    }
    &all[..count]
}

#[tactic(auto, using(std::proofs::lemmas::Grind::common_steps, crate::proofs::Filling::filling))]
fn add_calls(
    alloc: Global,
    all: &mut List<PlainCall>,
    door: u32,
    sender: &i128,
    choices: &[List<i128>],
) -> Result<(), NoMemory>
    ensures { OnOk result (all.new ≡ filled all.old (called_by door choices.now sender.now)) }
{
    for args in choices {
        if all.len() >= MAX_PROBES {
            return Ok(());
        }
        let args = args.copy(alloc)?;
        all.push(PlainCall {
            door,
            sender: *sender,
            args,
        })?;
    }
    Ok(())
}
