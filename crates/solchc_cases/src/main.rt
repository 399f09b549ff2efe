//! Runs files of cases: asks the program what each record asks, over files and output in memory, and prints each answer
//! that isn't as expected, and at the end how many are, how many aren't, and how many need what isn't built.
//! The format of a record stands in docs/FORMATS.md.
#![tactic(auto)]

mod answer;
mod judge;
mod place;
mod question;
mod record;
mod report;
mod section;
mod tally;

use crate::record::{Record, read_records};
use crate::tally::{Tally, judge_all};
use chc_nums::NoMemory;
use std::alloc::Global;
use std::process::ExitCode;
use std::{env, fs};

// The statuses: all is as expected, something isn't, nothing could be judged.
const GOOD: u8 = 0;

const DIFFERENT: u8 = 1;

const UNFIT: u8 = 2;

// A file of cases, and its text.
type Read = (String, String);

fn read_files(rt: &HostRuntime) -> Result<Vec<Read>, NoMemory> {
    let mut files = Vec::new(rt.alloc());
    let Ok(args) = env::args(rt) else {
        return Ok(files);
    };
    for name in args.skip(1) {
        let Ok(text) = fs::read_to_string(rt, name.as_str()) else {
            let _ = eprintln!(rt; "solchc_cases: cannot read {}", name.as_str());
            return Ok(Vec::new(rt.alloc()));
        };
        files.push((name, text))?;
    }
    Ok(files)
}

// The records of each file, in the order of the files.
fn read_all<'a>(alloc: Global, files: &'a [Read]) -> Result<Vec<Vec<Record<'a>>>, NoMemory> {
    let mut all = Vec::new(alloc);
    for file in files {
        all.push(read_records(alloc, file.1.as_str())?)?;
    }
    Ok(all)
}

// Judges all records of all files, and prints what differs and the counts.
fn judge_files(rt: &HostRuntime, files: &[Read]) -> Result<Tally, NoMemory> {
    let alloc = rt.alloc();
    let all = read_all(alloc, files)?;
    let mut total = Tally::new();
    for (file, records) in files.iter().zip(all.iter()) {
        let mut told = String::new(alloc);
        let tally = judge_all(alloc, records.as_slice(), all.as_slice(), &mut told)?;
        let counts = tally.line(alloc)?;
        let _ = print!(rt; "{}{}: {}", told.as_str(), file.0.as_str(), counts.as_str());
        total = total.with(&tally);
    }
    let counts = total.line(alloc)?;
    let _ = print!(rt; "{}", counts.as_str());
    Ok(total)
}

fn main(rt: HostRuntime) -> ExitCode {
    let Ok(files) = read_files(&rt) else {
        return ExitCode::from(UNFIT);
    };
    match judge_files(&rt, files.as_slice()) {
        Ok(tally) if tally.is_empty() => ExitCode::from(UNFIT),
        Ok(tally) if tally.has_differences() => ExitCode::from(DIFFERENT),
        Ok(_) => ExitCode::from(GOOD),
        Err(_) => ExitCode::from(UNFIT),
    }
}
