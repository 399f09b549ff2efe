// Whether an answer is as expected.

use crate::place::{has_place, place};
use crate::question::Answer;
use crate::report::{Block, Said, read_blocks};
use chc_nums::NoMemory;
use std::alloc::Global;

/// Whether an answer is the one that is wanted, where `*:*` stands for any place of the source.
pub fn is_same(want: &[u8], got: &[u8], source: &[u8]) -> bool {
    if want == got {
        return true;
    }
    let (Ok(want), Ok(got)) = (std::str::from_utf8(want), std::str::from_utf8(got)) else {
        return false;
    };
    let Some(wanted) = want.strip_prefix("*:* ") else {
        return false;
    };
    match got.split_once(' ') {
        None => false,
        Some((at, rest)) => match place(at) {
            None => false,
            Some((line, column)) => rest == wanted && has_place(source, line, column),
        },
    }
}

/// Whether an answer says that what the record needs isn't built.
pub fn is_not_built(name: &str, answer: &[u8]) -> bool {
    match std::str::from_utf8(answer) {
        Err(_) => false,
        Ok("refused not-built\n" | "words refused\n") => true,
        Ok(text) => name.starts_with("view-calls-") && text.ends_with(" refused type 25\n"),
    }
}

// Whether two scripts are the same, line by line.
fn same_scripts(a: &[&str], b: &[&str]) -> bool {
    a.len() == b.len() && a.iter().zip(b.iter()).all(|(x, y)| *x == *y)
}

// Whether a script's last line ends it.
fn is_script(script: &[&str]) -> bool {
    match script.last() {
        None => false,
        Some(last) => *last == "end",
    }
}

// What is wrong with the verdict of a target.
fn wrong_verdict(fact: &Block<'_>, verdict: &Block<'_>) -> Option<&'static str> {
    if fact.target != verdict.target {
        return Some("other targets");
    }
    if !verdict.said.is_verdict() {
        return Some("a line of another form");
    }
    let is_unsafe = verdict.said == Said::Unsafe;
    if !is_unsafe && !verdict.script.is_empty() {
        return Some("a script without a verdict that has one");
    }
    if is_unsafe && !is_script(verdict.script.as_slice()) {
        return Some("unsafe without a script");
    }
    match fact.said {
        Said::Probe => {
            if !same_scripts(fact.script.as_slice(), verdict.script.as_slice()) {
                return Some("not the script of the first probe that hits");
            }
        }
        Said::Violable => {
            if verdict.said == Said::Safe {
                return Some("safe, and a script violates it");
            }
        }
        Said::Safe => {
            if is_unsafe {
                return Some("unsafe, and no script violates it");
            }
        }
        Said::Open | Said::Unsafe | Said::Unknown => {}
    }
    None
}

// How many targets have this verdict.
fn count(verdicts: &[Block<'_>], said: Said) -> u32 {
    let mut all = 0u32;
    for verdict in verdicts {
        if verdict.said == said {
            all = all.saturating_add(1);
        }
    }
    all
}

// What is wrong with the last line and the status of a report.
fn wrong_end(
    alloc: Global,
    verdicts: &[Block<'_>],
    last: &str,
    status: u8,
) -> Result<Option<&'static str>, NoMemory> {
    let n_safe = count(verdicts, Said::Safe);
    let n_unsafe = count(verdicts, Said::Unsafe);
    let n_unknown = count(verdicts, Said::Unknown);
    let all = verdicts.len();
    let want = format!(in alloc;
        "targets {all} safe {n_safe} unsafe {n_unsafe} unknown {n_unknown}"
    )?;
    if last != want.as_str() {
        return Ok(Some("another last line"));
    }
    let code = if n_unsafe > 0 {
        1
    } else if n_unknown > 0 {
        2
    } else {
        0
    };
    if status == code {
        Ok(None)
    } else {
        Ok(Some("another status"))
    }
}

/// What is wrong with a report, where each target has a fact.
pub fn wrong_report(
    alloc: Global,
    facts: &str,
    answer: &Answer,
) -> Result<Option<&'static str>, NoMemory> {
    let Ok(text) = std::str::from_utf8(answer.text.as_slice()) else {
        return Ok(Some("a line of another form"));
    };
    let (Some(facts), Some(report)) = (read_blocks(alloc, facts)?, read_blocks(alloc, text)?) else {
        return Ok(Some("a line of another form"));
    };
    if facts.blocks.len() != report.blocks.len() {
        return Ok(Some("other targets"));
    }
    for (fact, verdict) in facts.blocks.iter().zip(report.blocks.iter()) {
        let wrong = wrong_verdict(fact, verdict);
        if wrong.is_some() {
            return Ok(wrong);
        }
    }
    wrong_end(alloc, report.blocks.as_slice(), report.last, answer.status)
}
