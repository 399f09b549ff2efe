// The top calls.

ghost use Rattle.std.specs.Prelude.{◌≡◌, Some, None};
ghost use Rattle.std.specs.List.{concat};
ghost use Rattle.sol_driver.specs.Ends.{Ends, asked, told};
ghost use Rattle.sol_driver.specs.Outcomes.{TellsText};
ghost use Rattle.sol_outside.specs.Causes.{AppendedPart};
ghost use Rattle.sol_report.specs.Texts.{text_of};
ghost use Rattle.sol_driver.specs.Texts.{status_line, status_of as the_status};

use crate::find::{Finding, find};
use crate::outcome::{Outcome, Status, status_line, status_of};
use crate::replay::{replay_line, replay_status};
use crate::tell::tell;
use chc_nums::Name;
use sol_outside::{Gate, Shelf, Sink, SinkFault};
use sol_report::{Report, lines};
use std::alloc::Global;
use std::sync::Wait;
use std::thread::Threads;

/// Want of memory is told once, as well as it can be; a fault of that changes nothing.
#[tactic(auto, using(crate::proofs::Outcomes::attempts))]
pub fn without_memory<K: Sink>(report: Option<Report>, out: &mut K) -> Outcome
    ensures outcome { result ≡ record { status = Status.NoMemory; report = report } }
    ensures written { AppendedPart (K.written out.old) (K.written out.new) (status_line Status.NoMemory) }
{
    let _ = out.put(status_line(Status::NoMemory));
    Outcome {
        status: Status::NoMemory,
        report,
    }
}

// A status that has one line and no report.
#[tactic(auto, using(crate::proofs::Outcomes::outcomes))]
fn tell_line<K: Sink>(status: Status, line: &[u8], out: &mut K) -> Outcome
    ensures { TellsText status None line.now (told (K.written out.old) (K.written out.new) (K.faults out.old) (K.faults out.new)) result }
{
    match out.put(line) {
        Ok(()) => Outcome {
            status,
            report: None,
        },
        Err(SinkFault::Failed) => Outcome {
            status: Status::WriteFault,
            report: None,
        },
        Err(SinkFault::NoMemory) => without_memory(None, out),
    }
}

// A report, and the status that its verdicts give.
#[tactic(auto, using(crate::proofs::Outcomes::outcomes))]
fn tell_report<K: Sink>(alloc: Global, report: Report, out: &mut K) -> Outcome
    ensures { TellsText (the_status report.verdicts) (Some report) (text_of report) (told (K.written out.old) (K.written out.new) (K.faults out.old) (K.faults out.new)) result }
{
    let Ok(lines) = lines(alloc, &report) else {
        return without_memory(None, out);
    };
    let status = status_of(report.verdicts.as_slice());
    match tell(lines.as_slice(), out) {
        Ok(()) => Outcome {
            status,
            report: Some(report),
        },
        Err(SinkFault::Failed) => Outcome {
            status: Status::WriteFault,
            report: Some(report),
        },
        Err(SinkFault::NoMemory) => without_memory(Some(report), out),
    }
}

// The list of the targets.
#[tactic(auto, using(crate::proofs::Outcomes::outcomes))]
fn tell_listing<K: Sink>(lines: &[Name], out: &mut K) -> Outcome
    ensures { TellsText Status.Good None (concat lines.now) (told (K.written out.old) (K.written out.new) (K.faults out.old) (K.faults out.new)) result }
{
    match tell(lines, out) {
        Ok(()) => Outcome {
            status: Status::Good,
            report: None,
        },
        Err(SinkFault::Failed) => Outcome {
            status: Status::WriteFault,
            report: None,
        },
        Err(SinkFault::NoMemory) => without_memory(None, out),
    }
}

/// Does what the words ask, and waits for nobody. `check FILE` reads the file and prints its report, a line for each target
/// and one that counts them; `targets FILE` lists the targets; `replay FILE SCRIPT TARGET` says whether the calls in SCRIPT
/// violate the target. `--contract NAME` names the contract. Any other words are refused.
#[tactic(auto, using(crate::proofs::Outcomes::outcomes))]
pub fn run_alone<F: Shelf, K: Sink>(
    alloc: Global,
    words: &[String],
    shelf: &mut F,
    out: &mut K,
) -> Outcome
    ensures { Ends (asked words.now (F.holds shelf.old) (F.faults shelf.old) (F.faults shelf.new)) (told (K.written out.old) (K.written out.new) (K.faults out.old) (K.faults out.new)) result }
{
    match find(alloc, words, shelf) {
        Ok(Finding::Line(status)) => tell_line(status, status_line(status), out),
        Ok(Finding::Refused(line)) => tell_line(Status::Source, line.as_slice(), out),
        Ok(Finding::Checked(report)) => tell_report(alloc, report, out),
        Ok(Finding::Listed(lines)) => tell_listing(lines.as_slice(), out),
        Ok(Finding::Shown(shown)) => tell_line(replay_status(shown), replay_line(shown), out),
        Err(_) => without_memory(None, out),
    }
}

/// Does what the words ask, as `run_alone`. It has leave to start threads and to wait; no command needs it yet.
pub fn run_main<R: Threads + Wait + Sync, F: Shelf, K: Sink, G: Gate + Sync>(
    _rt: &R,
    alloc: Global,
    words: &[String],
    shelf: &mut F,
    out: &mut K,
    _gate: &G,
) -> Outcome
    ensures { Ends (asked words.now (F.holds shelf.old) (F.faults shelf.old) (F.faults shelf.new)) (told (K.written out.old) (K.written out.new) (K.faults out.old) (K.faults out.new)) result }
{
    run_alone(alloc, words, shelf, out)
}
