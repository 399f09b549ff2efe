// Records of cases.

use crate::section::Section;
use chc_nums::NoMemory;
use std::alloc::Global;

/// A case: what the program is asked, and what it may answer.
#[derive(Drop)]
pub struct Record<'a> {
    pub name: &'a str,
    pub sections: Vec<Section<'a>>,
}

/// The records of a file of cases.
pub fn read_records<'a>(alloc: Global, text: &'a str) -> Result<Vec<Record<'a>>, NoMemory> {
    let mut records = Vec::new(alloc);
    for line in text.split_terminator('\n') {
        if let Some(name) = line.strip_prefix("=== ") {
            records.push(Record {
                name,
                sections: Vec::new(alloc),
            })?;
        } else if let Some(record) = records.last_mut() {
            record.push_line(alloc, line)?;
        }
    }
    Ok(records)
}

impl<'a> Record<'a> {
    // A line that begins a section, or is one of the last.
    fn push_line(&mut self, alloc: Global, line: &'a str) -> Result<(), NoMemory> {
        if let Some(mark) = line.strip_prefix("--- ") {
            self.sections.push(Section {
                mark,
                lines: Vec::new(alloc),
            })?;
        } else if let Some(section) = self.sections.last_mut() {
            section.push_line(line)?;
        }
        Ok(())
    }

    /// The first section of a word.
    pub fn section(&self, word: &str) -> Option<&Section<'a>> {
        for section in self.sections.as_slice() {
            if section.word().0 == word {
                return Some(section);
            }
        }
        None
    }

    /// The text of the first section of a word; none where there is no such section.
    pub fn text(&self, alloc: Global, word: &str) -> Result<Option<Vec<u8>>, NoMemory> {
        match self.section(word) {
            Some(section) => Ok(Some(section.text(alloc)?)),
            None => Ok(None),
        }
    }

    /// The source, with what is said again and again behind it; none where the record has none of its own.
    pub fn source(&self, alloc: Global) -> Result<Option<Vec<u8>>, NoMemory> {
        let Some(mut source) = self.text(alloc, "source")? else {
            return Ok(None);
        };
        for section in self.sections.as_slice() {
            let (word, rest) = section.word();
            if word == "again" {
                let more = section.text(alloc)?;
                for _ in 0..times(rest) {
                    source.extend_from_slice(more.as_slice())?;
                }
            }
        }
        Ok(Some(source))
    }

    /// The answers that are allowed.
    pub fn answers(&self, alloc: Global) -> Result<Vec<Vec<u8>>, NoMemory> {
        let mut answers = Vec::new(alloc);
        for section in self.sections.as_slice() {
            let (word, _) = section.word();
            if word == "expect" || word == "or" {
                answers.push(section.text(alloc)?)?;
            }
        }
        Ok(answers)
    }
}

// The number at the head of a text.
fn times(text: &str) -> u32 {
    let word = match text.split_once(' ') {
        Some((word, _)) => word,
        None => text,
    };
    word.parse::<u32>().unwrap_or(0)
}

// The record of a name.
fn named<'a, 'b>(all: &'b [Vec<Record<'a>>], name: &str) -> Option<&'b Record<'a>> {
    for records in all {
        for record in records.as_slice() {
            if record.name == name {
                return Some(record);
            }
        }
    }
    None
}

/// The source of a record, which may be that of another one.
pub fn source_of(
    alloc: Global,
    record: &Record<'_>,
    all: &[Vec<Record<'_>>],
) -> Result<Option<Vec<u8>>, NoMemory> {
    if let Some(source) = record.source(alloc)? {
        return Ok(Some(source));
    }
    let Some(section) = record.section("use") else {
        return Ok(None);
    };
    let mut name = section.word().1;
    for _ in 0..100 {
        let Some(other) = named(all, name) else {
            return Ok(None);
        };
        match other.section("use") {
            Some(section) => name = section.word().1,
            None => return other.source(alloc),
        }
    }
    Ok(None)
}
