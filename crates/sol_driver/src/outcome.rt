// How a command ends.

ghost use Rattle.std.specs.Prelude.{◌≡◌, if◌then◌else◌, false, true};
ghost use Rattle.sol_driver.specs.Texts.{is_unsafe, is_unknown, some_verdict, status_of, status_line, code_of};

use sol_report::{Report, Verdict};

/// How a command ends: every target is safe, some is unsafe, none is unsafe and some unknown, the source or the words
/// are refused, a read or a write failed, memory was wanting, a file holds more than 262,144 bytes, or a script shows no
/// violation. `Good` is also that of a list of targets, and of a script that violates its target.
#[derive(Clone, Copy, Debug, PartialEq, Eq)]
pub enum Status {
    Good,
    Unsafe,
    Unknown,
    Source,
    Words,
    ReadFault,
    WriteFault,
    NoMemory,
    TooLong,
    Script,
}

/// The status of a command, and its report where there is one.
#[derive(Drop)]
pub struct Outcome {
    pub status: Status,
    pub report: Option<Report>,
}

/// The number that a process ends with.
pub fn code(status: Status) -> u8
    ensures { result ≡ code_of status }
{
    match status {
        Status::Good => 0,
        Status::Unsafe => 1,
        Status::Unknown => 2,
        Status::Source => 3,
        Status::Words => 4,
        Status::ReadFault => 5,
        Status::WriteFault => 6,
        Status::NoMemory => 7,
        Status::TooLong => 8,
        Status::Script => 9,
    }
}

fn some_unsafe(verdicts: &[(u32, Verdict)]) -> bool
    ensures { result ≡ some_verdict is_unsafe verdicts.now }
{
    for entry in verdicts {
        match &entry.1 {
            Verdict::Unsafe { .. } => return true,
            Verdict::Safe(_, _) | Verdict::Unknown { .. } => {}
        }
    }
    false
}

fn some_unknown(verdicts: &[(u32, Verdict)]) -> bool
    ensures { result ≡ some_verdict is_unknown verdicts.now }
{
    for entry in verdicts {
        match &entry.1 {
            Verdict::Unknown { .. } => return true,
            Verdict::Safe(_, _) | Verdict::Unsafe { .. } => {}
        }
    }
    false
}

/// The status that verdicts give.
pub fn status_of(verdicts: &[(u32, Verdict)]) -> Status
    ensures { result ≡ status_of verdicts.now }
{
    if some_unsafe(verdicts) {
        Status::Unsafe
    } else if some_unknown(verdicts) {
        Status::Unknown
    } else {
        Status::Good
    }
}

/// The one line of a status that has no report. Those of a refused source and of a replay tell the cause, and aren't given
/// here.
pub fn status_line(status: Status) -> &'static [u8]
    ensures { result.now ≡ status_line status }
{
    match status {
        Status::Words => b"words refused\n",
        Status::ReadFault => b"read fault\n",
        Status::NoMemory => b"no memory\n",
        Status::TooLong => b"file too long\n",
        Status::Good
        | Status::Unsafe
        | Status::Unknown
        | Status::Source
        | Status::WriteFault
        | Status::Script => b"",
    }
}
