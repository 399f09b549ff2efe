// What a record asks the program, and what the program answers.

use crate::record::Record;
use chc_nums::NoMemory;
use sol_driver::{Outcome, code, run_alone};
use sol_outside::{MemShelf, MemSink};
use std::alloc::Global;
use std::mem;

const SOURCE: &str = "a.sol";

const SCRIPT: &str = "a.script";

/// What the program wrote, and the status that it ended with.
#[derive(Drop)]
pub struct Answer {
    pub text: Vec<u8>,
    pub status: u8,
}

/// What the program is asked.
#[derive(Drop)]
pub struct Question {
    pub words: Vec<String>,
    pub files: Vec<(String, Vec<u8>)>,
    pub failing_reads: Vec<u32>,
    pub failing_puts: Vec<(u32, u32)>,
}

// The words, as lines, as they are asked.
fn words_of(alloc: Global, lines: &str) -> Result<Vec<String>, NoMemory> {
    let mut words = Vec::new(alloc);
    for line in lines.split_terminator('\n') {
        words.push(String::from_str(alloc, line)?)?;
    }
    Ok(words)
}

// The number of a word; the greatest where it is none.
fn number(word: &str) -> u32 {
    word.parse::<u32>().unwrap_or(u32::MAX)
}

fn lines_of<'b>(text: &'b Option<Vec<u8>>) -> &'b str {
    match text {
        None => "",
        Some(bytes) => std::str::from_utf8(bytes.as_slice()).unwrap_or(""),
    }
}

// The reads that are to fail, each on a line.
fn failing_reads(alloc: Global, lines: &str) -> Result<Vec<u32>, NoMemory> {
    let mut all = Vec::new(alloc);
    for line in lines.split_terminator('\n') {
        all.push(number(line))?;
    }
    Ok(all)
}

// The puts that are to fail, and after how many bytes, each on a line.
fn failing_puts(alloc: Global, lines: &str) -> Result<Vec<(u32, u32)>, NoMemory> {
    let mut all = Vec::new(alloc);
    for line in lines.split_terminator('\n') {
        if let Some((at, after)) = line.split_once(' ') {
            all.push((number(at), number(after)))?;
        }
    }
    Ok(all)
}

// The words for `check`, `targets` or `replay`.
fn command(alloc: Global, command: &str, target: &str) -> Result<Vec<String>, NoMemory> {
    let mut words = Vec::new(alloc);
    words.push(String::from_str(alloc, command)?)?;
    words.push(String::from_str(alloc, SOURCE)?)?;
    if command == "replay" {
        words.push(String::from_str(alloc, SCRIPT)?)?;
        words.push(String::from_str(alloc, target)?)?;
    }
    Ok(words)
}

/// What a record asks, by its sections and the command that its answers belong to.
pub fn question_of(
    alloc: Global,
    record: &Record<'_>,
    source: Vec<u8>,
    name: &str,
) -> Result<Question, NoMemory> {
    let mut files = Vec::new(alloc);
    files.push((String::from_str(alloc, SOURCE)?, source))?;
    if let Some(script) = record.text(alloc, "script")? {
        files.push((String::from_str(alloc, SCRIPT)?, script))?;
    }
    let target = record.text(alloc, "target")?;
    let words = record.text(alloc, "words")?;
    let words = if words.is_some() {
        words_of(alloc, lines_of(&words))?
    } else {
        command(alloc, name, lines_of(&target).trim())?
    };
    let reads = record.text(alloc, "failing-reads")?;
    let puts = record.text(alloc, "failing-puts")?;
    Ok(Question {
        words,
        files,
        failing_reads: failing_reads(alloc, lines_of(&reads))?,
        failing_puts: failing_puts(alloc, lines_of(&puts))?,
    })
}

/// What the program answers.
pub fn ask(alloc: Global, question: Question) -> Result<Answer, NoMemory> {
    let Question {
        words,
        files,
        failing_reads,
        failing_puts,
    } = question;
    let mut shelf = MemShelf::new(files, failing_reads);
    let mut sink = MemSink::new(alloc, failing_puts);
    let Outcome { status, report } = run_alone(alloc, words.as_slice(), &mut shelf, &mut sink);
    // To drop the report here would prove the drop of each of its parts again.
    mem::forget(report);
    Ok(Answer {
        text: Vec::from_slice(alloc, sink.written())?,
        status: code(status),
    })
}
