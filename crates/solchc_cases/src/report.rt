// Reports and lists of facts, line by line.

use crate::place::place;
use chc_nums::NoMemory;
use std::alloc::Global;

/// What a line says of a target: a verdict of a report, or a fact of a case.
#[derive(Clone, Copy, Debug, PartialEq, Eq)]
pub enum Said {
    Safe,
    Unsafe,
    Unknown,
    Probe,
    Violable,
    Open,
}

impl Said {
    /// Whether it stands in a report.
    pub fn is_verdict(&self) -> bool {
        matches!(self, Said::Safe | Said::Unsafe | Said::Unknown)
    }

    /// Whether it is a fact of a case.
    pub fn is_fact(&self) -> bool {
        matches!(self, Said::Safe | Said::Probe | Said::Violable | Said::Open)
    }
}

/// A target, what is said of it, and the lines of the script below it, each without its two blanks.
#[derive(Drop)]
pub struct Block<'a> {
    pub target: &'a str,
    pub said: Said,
    pub script: Vec<&'a str>,
}

// Whether a word is a target, `L:C KIND`.
fn is_target(text: &str) -> bool {
    match text.split_once(' ') {
        None => false,
        Some((at, kind)) => place(at).is_some()
            && !kind.is_empty()
            && kind.as_bytes().iter().all(|b| b.is_ascii_alphabetic()),
    }
}

// Whether this is a reason why the templates, or the pool, don't decide.
fn is_reason(word: &str, rounds: bool) -> bool {
    match word {
        "point" | "wide" | "pivots" | "nodes" => true,
        "rounds" => rounds,
        _ => false,
    }
}

fn is_unknown(rest: &str) -> bool {
    match rest.split_once(" pool ") {
        None => false,
        Some((templates, pool)) => is_reason(templates, true) && is_reason(pool, false),
    }
}

// What stands before the last word, and what that word says.
fn by_last_word(line: &str) -> Option<(&str, Said)> {
    let (target, word) = line.rsplit_once(' ')?;
    match word {
        "safe" => Some((target, Said::Safe)),
        "unsafe" => Some((target, Said::Unsafe)),
        "probe" => Some((target, Said::Probe)),
        "violable" => Some((target, Said::Violable)),
        "open" => Some((target, Said::Open)),
        _ => None,
    }
}

/// The target of a line, and what the line says of it.
pub fn headline(line: &str) -> Option<(&str, Said)> {
    let (target, said) = match line.split_once(" unknown templates ") {
        Some((target, rest)) => {
            if !is_unknown(rest) {
                return None;
            }
            (target, Said::Unknown)
        }
        None => by_last_word(line)?,
    };
    if is_target(target) {
        Some((target, said))
    } else {
        None
    }
}

/// A report or a list of facts.
#[derive(Drop)]
pub struct Blocks<'a> {
    pub blocks: Vec<Block<'a>>,
    pub last: &'a str,
}

/// The lines of a text but for the last, block by block, and the last line; none where a line has another form.
pub fn read_blocks<'a>(alloc: Global, text: &'a str) -> Result<Option<Blocks<'a>>, NoMemory> {
    let Some(whole) = text.strip_suffix('\n') else {
        return Ok(None);
    };
    let (head, last) = match whole.rsplit_once('\n') {
        Some((head, last)) => (head, last),
        None => ("", whole),
    };
    let mut blocks: Vec<Block<'a>> = Vec::new(alloc);
    for line in head.split('\n') {
        if let Some(step) = line.strip_prefix("  ") {
            let Some(block) = blocks.last_mut() else {
                return Ok(None);
            };
            block.script.push(step)?;
        } else if let Some((target, said)) = headline(line) {
            blocks.push(Block {
                target,
                said,
                script: Vec::new(alloc),
            })?;
        } else if !head.is_empty() {
            return Ok(None);
        }
    }
    Ok(Some(Blocks { blocks, last }))
}
