// A script's text, run against a program.

ghost use Rattle.std.specs.Prelude.{◌≡◌, ◌↔◌, ◌<◌, ◌^◌, length, true, IfOk, IsTrue};
ghost use Rattle.std.specs.List.{Contains};
ghost use Rattle.sol_core.specs.Formed.{are_params};
ghost use Rattle.sol_eval.specs.Sized.{is_sized};
ghost use Rattle.sol_replay.specs.Replays.{HitsAmong, Shown, Replays};

use chc_nums::MAX_TURNS;
use lists::NoMemory;
use sol_core::{Program, Script, Site, check_script};
use sol_eval::run;
use sol_script::{ScriptTextFault, read};
use std::alloc::Global;

/// What the text of a script shows of a target.
#[derive(Clone, Copy, Debug, PartialEq, Eq)]
pub enum Replayed {
    /// The script violates the target.
    Violated,
    /// It doesn't.
    NotViolated,
    /// The text tells no script that fits the program.
    ScriptRefused,
    /// The program has no such target.
    NoTarget,
}

// Whether the target is one of these.
#[tactic(auto, using(crate::proofs::Hitting::seeking))]
fn has(sites: &[Site], target: Site) -> bool
    ensures { (result ≡ true) ↔ Contains sites.now target }
{
    for site in sites {
        if *site == target {
            return true;
        }
    }
    false
}

// Whether some of these places of targets is that of the target.
#[tactic(auto, using(crate::proofs::Hitting::looking))]
fn hits(sites: &[Site], hits: &[u32], target: Site) -> bool
    ensures { (result ≡ true) ↔ HitsAmong sites.now hits.now target }
{
    for hit in hits {
        match sites.get(*hit as usize) {
            None => {}
            Some(site) => {
                if *site == target {
                    return true;
                }
            }
        }
    }
    false
}

// What a script that fits shows of a target.
fn shown(alloc: Global, p: &Program, script: &Script, target: Site) -> Result<Replayed, NoMemory>
    requires { IsTrue (is_sized p.now) }
    ensures { IfOk result (λ r. Shown p.now script.now target r) }
{
    let run = run(alloc, p, script, MAX_TURNS)?;
    if hits(p.sites.as_slice(), run.hits.as_slice(), target) {
        Ok(Replayed::Violated)
    } else {
        Ok(Replayed::NotViolated)
    }
}

/// What a text of fewer than 2^32 bytes shows of a target of a program. The target is looked for first, then the text is read,
/// and then the script is tested and run.
#[tactic(auto, using(crate::proofs::Hitting::telling))]
pub fn replay(alloc: Global, p: &Program, text: &[u8], target: Site) -> Result<Replayed, NoMemory>
    requires params { IsTrue (are_params p.now) }
    requires sized { IsTrue (is_sized p.now) }
    requires doors { length p.now.doors < 2 ^ 32 }
    requires bytes { length text.now < 2 ^ 32 }
    ensures { IfOk result (λ r. Replays p.now text.now target r) }
{
    if !has(p.sites.as_slice(), target) {
        return Ok(Replayed::NoTarget);
    }
    match read(alloc, text, p) {
        Ok(script) => match check_script(p, &script) {
            Ok(()) => shown(alloc, p, &script, target),
            Err(_) => Ok(Replayed::ScriptRefused),
        },
        Err(ScriptTextFault::BadLine { .. }) => Ok(Replayed::ScriptRefused),
        Err(ScriptTextFault::NoName { .. }) => Ok(Replayed::ScriptRefused),
        Err(ScriptTextFault::TooDeep { .. }) => Ok(Replayed::ScriptRefused),
        Err(ScriptTextFault::NoMemory) => Err(NoMemory),
    }
}
