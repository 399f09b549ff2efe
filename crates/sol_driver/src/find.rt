// From the words to what there is to tell.

ghost use Rattle.std.specs.Prelude.{◌≡◌, ◌≤◌, ◌<◌, ◌^◌, length, map, Some, IfOk, string_bytes};
ghost use Rattle.sol_first.specs.Typed.{IsTyped};
ghost use Rattle.sol_words.specs.declared.Request.TheVariants as form;
ghost use Rattle.sol_words.specs.declared.Source.{Source};
ghost use Rattle.sol_words.specs.Request.{request as asks, source_of};
ghost use Rattle.sol_driver.specs.Ends.{asked};
ghost use Rattle.sol_driver.specs.Findings.{IsFinding, Answers, IsJudged};

use crate::contract::{CheckFault, read_contract};
use crate::outcome::Status;
use crate::refusal::refusal_line;
use crate::replay::replay_contract;
use chc_nums::{List, MAX_FILE_BYTES, Name, NoMemory};
use sol_check::check_contract;
use sol_core::Site;
use sol_first::{Contract, sites};
use sol_outside::{Shelf, ShelfFault};
use sol_replay::Replayed;
use sol_report::{Report, listing};
use sol_words::{Request, read_request};
use std::alloc::Global;

/// What there is to tell: the one line of a status, the line of a refused text, a report, the lines that list the targets, or
/// what a script shows.
#[derive(Drop)]
pub enum Finding {
    Line(Status),
    Refused(List<u8>),
    Checked(Report),
    Listed(List<Name>),
    Shown(Replayed),
}

// What the script that the shelf has under a name shows of a target of a contract.
#[tactic(auto, using(crate::proofs::Findings::answering))]
fn show<F: Shelf>(
    alloc: Global,
    contract: &Contract,
    script: &Name,
    target: Site,
    shelf: &mut F,
) -> Result<Finding, NoMemory>
    requires typed { IsTyped contract.now }
    requires few { length contract.now.functions < 2 ^ 32 }
    ensures { IfOk result (λ f. (source : Source) → Answers contract.now (F.holds shelf.old) (F.faults shelf.old) (F.faults shelf.new) (form.Replay source script.now target) f) }
{
    match shelf.read(alloc, script.as_str(), MAX_FILE_BYTES) {
        Ok(bytes) => Ok(Finding::Shown(replay_contract(
            alloc,
            contract,
            bytes.as_slice(),
            target,
        )?)),
        Err(ShelfFault::Failed) => Ok(Finding::Line(Status::ReadFault)),
        Err(ShelfFault::TooLong { .. }) => Ok(Finding::Line(Status::TooLong)),
        Err(ShelfFault::NoMemory) => Err(NoMemory),
    }
}

// What there is to tell of a contract.
#[tactic(auto, using(crate::proofs::Findings::answering))]
fn answer<F: Shelf>(
    alloc: Global,
    request: &Request,
    contract: &Contract,
    shelf: &mut F,
) -> Result<Finding, NoMemory>
    requires typed { IsTyped contract.now }
    requires few { length contract.now.functions < 2 ^ 32 }
    ensures { IfOk result (λ f. Answers contract.now (F.holds shelf.old) (F.faults shelf.old) (F.faults shelf.new) request.now f) }
{
    match request {
        Request::Check(_) => Ok(Finding::Checked(check_contract(alloc, contract)?)),
        Request::Targets(_) => {
            let sites = sites(alloc, contract.functions.as_slice())?;
            Ok(Finding::Listed(listing(alloc, sites.as_slice())?))
        }
        Request::Replay { script, target, .. } => show(alloc, contract, script, *target, shelf),
    }
}

// What there is to tell of the bytes of the source.
#[tactic(auto, using(crate::proofs::Findings::judging))]
fn find_in<F: Shelf>(
    alloc: Global,
    request: &Request,
    bytes: &[u8],
    shelf: &mut F,
) -> Result<Finding, NoMemory>
    requires { length bytes.now ≤ MAX_FILE_BYTES }
    ensures { IfOk result (λ f. IsJudged request.now bytes.now (F.holds shelf.old) (F.faults shelf.old) (F.faults shelf.new) f) }
{
    match read_contract(alloc, bytes, &request.source().contract) {
        Ok(contract) => answer(alloc, request, &contract, shelf),
        Err(CheckFault::Refused(refusal)) => {
            Ok(Finding::Refused(refusal_line(alloc, bytes, refusal)?))
        }
        Err(CheckFault::NoMemory) => Err(NoMemory),
    }
}

// What there is to tell of what is asked.
fn find_asked<F: Shelf>(
    alloc: Global,
    words: &[String],
    request: &Request,
    shelf: &mut F,
) -> Result<Finding, NoMemory>
    requires { asks (map string_bytes words.now) ≡ Some request.now }
    ensures { IfOk result (λ f. IsFinding (asked words.now (F.holds shelf.old) (F.faults shelf.old) (F.faults shelf.new)) f) }
{
    let file = request.source().file.as_str();
    match shelf.read(alloc, file, MAX_FILE_BYTES) {
        Ok(bytes) => find_in(alloc, request, bytes.as_slice(), shelf),
        Err(ShelfFault::Failed) => Ok(Finding::Line(Status::ReadFault)),
        Err(ShelfFault::TooLong { .. }) => Ok(Finding::Line(Status::TooLong)),
        Err(ShelfFault::NoMemory) => Err(NoMemory),
    }
}

/// What there is to tell of the file that the words name.
pub fn find<F: Shelf>(alloc: Global, words: &[String], shelf: &mut F) -> Result<Finding, NoMemory>
    ensures { IfOk result (λ f. IsFinding (asked words.now (F.holds shelf.old) (F.faults shelf.old) (F.faults shelf.new)) f) }
{
    match read_request(alloc, words)? {
        None => Ok(Finding::Line(Status::Words)),
        Some(request) => find_asked(alloc, words, &request, shelf),
    }
}
