// The first probe that violates each target.

ghost use Rattle.std.specs.Prelude.{◌≡◌, ◌++◌, ◌∷◌, [], List, replicate, None, IsTrue, IfOk, OnOk};
ghost use Rattle.sol_core.specs.declared.Script.{Script};
ghost use Rattle.sol_eval.specs.Sized.{is_sized};
ghost use Rattle.sol_probe.specs.FirstHit.{AreFirstHits};
ghost use Rattle.sol_probe.specs.Noted.{noted, noted_at, AreFirstOf};

use crate::probes::probes;
use chc_nums::{List, MAX_TURNS, NoMemory};
use sol_core::{Program, Script};
use sol_eval::run;
use std::alloc::Global;

/// For each target of a program, in order, the first probe that violates it within `MAX_TURNS` turns, or none where none
/// does. Each probe is made once and run once.
pub fn first_hits(alloc: Global, p: &Program) -> Result<List<Option<Script>>, NoMemory>
    requires { IsTrue (is_sized p.now) }
    ensures { IfOk result (λ firsts. AreFirstHits p.now firsts) }
{
    let all = probes(alloc, p)?;
    first_of_all(alloc, p, all.as_slice())
}

// For each target the first of these scripts that violates it.
fn first_of_all(
    alloc: Global,
    p: &Program,
    scripts: &[Script],
) -> Result<List<Option<Script>>, NoMemory>
    requires { IsTrue (is_sized p.now) }
    ensures { IfOk result (λ firsts. AreFirstOf p.now scripts.now firsts) }
{
    let mut firsts = nothing(alloc, p.sites.len())?;
    for script in scripts {
        note_run(alloc, p, script, &mut firsts)?;
    }
    Ok(firsts)
}

// So many targets, none of which is violated yet.
fn nothing(alloc: Global, count: usize) -> Result<List<Option<Script>>, NoMemory>
    ensures { IfOk result (λ firsts. firsts ≡ replicate count None) }
{
    let mut firsts = List::new(alloc);
    for _i in 0..count {
        firsts.push(None)?;
    }
    Ok(firsts)
}

// A script is run, and noted at the targets that it is the first to violate.
fn note_run(
    alloc: Global,
    p: &Program,
    script: &Script,
    firsts: &mut List<Option<Script>>,
) -> Result<(), NoMemory>
    requires { IsTrue (is_sized p.now) }
    ensures { OnOk result ((before : List Script) → AreFirstOf p.now before firsts.old → AreFirstOf p.now (before ++ script.now ∷ []) firsts.new) }
{
    let run = run(alloc, p, script, MAX_TURNS)?;
    note(alloc, run.hits.as_slice(), script, firsts)
}

// A script is noted at those of these targets that have none.
fn note(
    alloc: Global,
    hits: &[u32],
    script: &Script,
    firsts: &mut List<Option<Script>>,
) -> Result<(), NoMemory>
    ensures { OnOk result (firsts.new ≡ noted script.now firsts.old hits.now) }
{
    for site in hits {
        note_at(alloc, *site, script, firsts)?;
    }
    Ok(())
}

fn note_at(
    alloc: Global,
    site: u32,
    script: &Script,
    firsts: &mut List<Option<Script>>,
) -> Result<(), NoMemory>
    ensures { OnOk result (firsts.new ≡ noted_at script.now firsts.old site) }
{
    let at = site as usize;
    if at < firsts.len() && firsts.as_slice()[at].is_none() {
        firsts.set(at, Some(script.copy(alloc)?));
    }
    Ok(())
}
