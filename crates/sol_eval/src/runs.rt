// Runs of scripts.

ghost use Rattle.std.specs.List.{list_all};
ghost use Rattle.std.specs.Prelude.{IsTrue, IfOk, None, false, map};
ghost use Rattle.sol_meaning.specs.Exec.{all_of, call_each};
ghost use Rattle.sol_meaning.specs.Calling.{level_at};
ghost use Rattle.sol_meaning.specs.Run.{run, ran, built, deployer};
ghost use Rattle.sol_eval.specs.Ran.{Ran};
ghost use Rattle.sol_eval.specs.Runs.{IsRun};
ghost use Rattle.sol_eval.specs.Sized.{fun_sized, build_sized, is_sized};

use crate::calls::call;
use crate::deployment::fresh;
use crate::frames::{Caller, Frame, Runner};
use crate::hits::ascending;
use crate::outcome::Run;
use chc_nums::{List, NoMemory};
use sol_core::{Program, Reply, Script};
use sol_meaning::{End, Got, World};
use std::alloc::Global;

/// A script's run with a number of turns.
#[tactic(auto, using(crate::proofs::Sizes::programs))]
pub fn run(alloc: Global, p: &Program, s: &Script, turns: u32) -> Result<Run, NoMemory>
    requires { IsTrue (is_sized p.now) }
    ensures { IfOk result (λ r. IsRun (run p.now s.now turns) r) }
{
    let mut w = fresh(alloc, p, turns)?;
    match deploy(alloc, p, s, turns, &mut w)? {
        Got::Value(_) => run_calls(alloc, p, s, turns, w),
        Got::Reverted => undeployed(w, false),
        Got::Cut => undeployed(w, true),
    }
}

fn deploy(
    alloc: Global,
    p: &Program,
    s: &Script,
    turns: u32,
    w: &mut World,
) -> Result<Got<End>, NoMemory>
    requires bodies { IsTrue (list_all fun_sized p.now.funs) }
    requires initialisers { IsTrue (list_all build_sized p.now.builds) }
    ensures { Ran (all_of (map (built (deployer p.now s.now.sender turns) s.now.args) p.now.builds) w.old) result w.new }
{
    let none: List<Reply> = List::new(alloc);
    let deployer = Caller {
        sender: s.sender,
        is_static: false,
        replies: none.as_slice(),
    };
    let frame = Frame {
        program: p,
        level: turns,
        caller: &deployer,
    };
    let runner = Runner { alloc, frame, call };
    runner.build_all(s.args.as_slice(), p.builds.as_slice(), w)
}

fn undeployed(w: World, cut: bool) -> Result<Run, NoMemory>
    ensures { IfOk result (λ r. IsRun (record { state = None; hits = w.hits; cut = cut }) r) }
{
    let World { hits, .. } = w;
    Ok(Run {
        state: None,
        hits: ascending(hits)?,
        cut,
    })
}

fn run_calls(alloc: Global, p: &Program, s: &Script, turns: u32, w: World) -> Result<Run, NoMemory>
    requires { IsTrue (list_all fun_sized p.now.funs) }
    ensures { IfOk result (λ r. IsRun (ran (call_each (level_at p.now turns) false s.now.calls w)) r) }
{
    let mut w = w;
    let none: List<Reply> = List::new(alloc);
    let deployer = Caller {
        sender: s.sender,
        is_static: false,
        replies: none.as_slice(),
    };
    let frame = Frame {
        program: p,
        level: turns,
        caller: &deployer,
    };
    let runner = Runner { alloc, frame, call };
    let cut = runner.call_each(false, s.calls.as_slice(), &mut w)?;
    ended(w, cut)
}

fn ended(w: World, cut: bool) -> Result<Run, NoMemory>
    ensures { IfOk result (λ r. IsRun (ran (cut, w)) r) }
{
    let World { state, hits, .. } = w;
    Ok(Run {
        state: Some(state),
        hits: ascending(hits)?,
        cut,
    })
}
