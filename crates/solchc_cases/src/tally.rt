// The judgement of all records of a file.

use crate::answer::{Kind, exact_status, kind_of};
use crate::judge::{is_not_built, is_same, wrong_report};
use crate::question::{Answer, ask, question_of};
use crate::record::{Record, source_of};
use chc_nums::NoMemory;
use std::alloc::Global;

/// How many records are as expected, how many aren't, and how many need what isn't built.
#[derive(Clone, Copy, Debug, PartialEq, Eq)]
pub struct Tally {
    expected: u64,
    different: u64,
    not_built: u64,
}

impl Tally {
    /// No record so far.
    pub fn new() -> Tally {
        Tally {
            expected: 0,
            different: 0,
            not_built: 0,
        }
    }

    /// These and those.
    pub fn with(&self, more: &Tally) -> Tally {
        Tally {
            expected: self.expected.saturating_add(more.expected),
            different: self.different.saturating_add(more.different),
            not_built: self.not_built.saturating_add(more.not_built),
        }
    }

    /// Whether nothing was judged.
    pub fn is_empty(&self) -> bool {
        self.expected == 0 && self.different == 0 && self.not_built == 0
    }

    /// Whether something isn't as expected.
    pub fn has_differences(&self) -> bool {
        self.different > 0
    }

    /// The counts, as a line.
    pub fn line(&self, alloc: Global) -> Result<String, NoMemory> {
        let Tally {
            expected,
            different,
            not_built,
        } = *self;
        Ok(format!(in alloc; "{expected} as expected, {different} not, {not_built} not built\n")?)
    }

    fn count(&mut self, judgement: Judgement) {
        let place = match judgement {
            Judgement::Expected => &mut self.expected,
            Judgement::NotBuilt => &mut self.not_built,
            Judgement::Different(_) => &mut self.different,
        };
        *place = place.saturating_add(1);
    }
}

// What became of a record.
#[derive(Clone, Copy, Debug, PartialEq, Eq)]
enum Judgement {
    Expected,
    NotBuilt,
    Different(&'static str),
}

// Whether the record says in which calls the output fails.
fn has_failing_puts(record: &Record<'_>) -> bool {
    record.section("failing-puts").is_some()
}

// Whether an answer is one of those that are allowed.
fn is_allowed(answers: &[Vec<u8>], got: &[u8], source: &[u8]) -> bool {
    for want in answers {
        if is_same(want.as_slice(), got, source) {
            return true;
        }
    }
    false
}

// The status that an allowed answer has to be told with.
fn status_of(record: &Record<'_>, kind: Kind, first: &str) -> u8 {
    if has_failing_puts(record) {
        return 6;
    }
    match kind {
        Kind::Targets | Kind::Facts => 0,
        Kind::Replay | Kind::Exact => exact_status(first).unwrap_or(0),
    }
}

fn judge_answer(
    alloc: Global,
    record: &Record<'_>,
    kind: Kind,
    answers: &[Vec<u8>],
    source: &[u8],
    got: &Answer,
) -> Result<Judgement, NoMemory> {
    let first = match answers.first() {
        None => "",
        Some(bytes) => std::str::from_utf8(bytes.as_slice()).unwrap_or(""),
    };
    if kind != Kind::Facts && is_allowed(answers, got.text.as_slice(), source) {
        return if got.status == status_of(record, kind, first) {
            Ok(Judgement::Expected)
        } else {
            Ok(Judgement::Different("another status"))
        };
    }
    if is_not_built(record.name, got.text.as_slice()) {
        return Ok(Judgement::NotBuilt);
    }
    if kind != Kind::Facts {
        return Ok(Judgement::Different("another answer"));
    }
    match wrong_report(alloc, first, got)? {
        None => Ok(Judgement::Expected),
        Some(why) => Ok(Judgement::Different(why)),
    }
}

// What a record's answers belong to, and the command that gives them.
fn command_of(record: &Record<'_>, answers: &[Vec<u8>]) -> (Kind, &'static str) {
    if record.section("target").is_some() {
        return (Kind::Replay, "replay");
    }
    if has_failing_puts(record) {
        return (Kind::Exact, "check");
    }
    let first = match answers.first() {
        None => "",
        Some(bytes) => std::str::from_utf8(bytes.as_slice()).unwrap_or(""),
    };
    match kind_of(first) {
        Kind::Targets => (Kind::Targets, "targets"),
        kind => (kind, "check"),
    }
}

// Tells of an answer that isn't as expected.
fn tell(told: &mut String, name: &str, why: &str, got: &Answer) -> Result<(), NoMemory> {
    told.push_str(name)?;
    told.push_str(": ")?;
    told.push_str(why)?;
    told.push_str("\n")?;
    let text = std::str::from_utf8(got.text.as_slice()).unwrap_or("no text\n");
    for line in text.split_terminator('\n') {
        told.push_str("    ")?;
        told.push_str(line)?;
        told.push_str("\n")?;
    }
    Ok(())
}

fn judge(
    alloc: Global,
    record: &Record<'_>,
    all: &[Vec<Record<'_>>],
    told: &mut String,
) -> Result<Judgement, NoMemory> {
    let Some(source) = source_of(alloc, record, all)? else {
        told.push_str(record.name)?;
        told.push_str(": no source\n")?;
        return Ok(Judgement::Different("no source"));
    };
    let answers = record.answers(alloc)?;
    let (kind, command) = command_of(record, answers.as_slice());
    let text = Vec::from_slice(alloc, source.as_slice())?;
    let got = ask(alloc, question_of(alloc, record, text, command)?)?;
    let judgement = judge_answer(
        alloc,
        record,
        kind,
        answers.as_slice(),
        source.as_slice(),
        &got,
    )?;
    if let Judgement::Different(why) = judgement {
        tell(told, record.name, why, &got)?;
    }
    Ok(judgement)
}

/// Judges records, and tells of each that isn't as expected.
pub fn judge_all(
    alloc: Global,
    records: &[Record<'_>],
    all: &[Vec<Record<'_>>],
    told: &mut String,
) -> Result<Tally, NoMemory> {
    let mut tally = Tally::new();
    for record in records {
        tally.count(judge(alloc, record, all, told)?);
    }
    Ok(tally)
}
