// A script run against a contract.

ghost use Rattle.std.specs.Prelude.{◌≡◌, ◌≤◌, ◌<◌, ◌^◌, length, IfOk};
ghost use Rattle.sol_first.specs.Typed.{IsTyped};
ghost use Rattle.sol_first.specs.Elaborated.{program_of};
ghost use Rattle.sol_replay.specs.Replays.{Replays};
ghost use Rattle.sol_driver.specs.Texts.{replay_line, replay_status};

use crate::outcome::Status;
use chc_nums::{MAX_FILE_BYTES, NoMemory};
use sol_core::Site;
use sol_first::{Contract, program};
use sol_replay::{Replayed, replay};
use std::alloc::Global;

/// What the text of a script shows of a target of a contract.
#[tactic(auto, using(crate::proofs::Programs::programs))]
pub fn replay_contract(
    alloc: Global,
    contract: &Contract,
    text: &[u8],
    target: Site,
) -> Result<Replayed, NoMemory>
    requires typed { IsTyped contract.now }
    requires few { length contract.now.functions < 2 ^ 32 }
    requires short { length text.now ≤ MAX_FILE_BYTES }
    ensures { IfOk result (λ r. Replays (program_of contract.now) text.now target r) }
{
    let program = program(alloc, contract)?;
    replay(alloc, &program, text, target)
}

/// The line that tells what a script shows.
pub fn replay_line(replayed: Replayed) -> &'static [u8]
    ensures { result.now ≡ replay_line replayed }
{
    match replayed {
        Replayed::Violated => b"violated\n",
        Replayed::NotViolated => b"not violated\n",
        Replayed::ScriptRefused => b"script refused\n",
        Replayed::NoTarget => b"no target\n",
    }
}

/// The status of what a script shows.
pub fn replay_status(replayed: Replayed) -> Status
    ensures { result ≡ replay_status replayed }
{
    match replayed {
        Replayed::Violated => Status::Good,
        Replayed::NotViolated | Replayed::ScriptRefused | Replayed::NoTarget => Status::Script,
    }
}
