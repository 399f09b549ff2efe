// The sections of a record.

use chc_nums::NoMemory;
use std::alloc::Global;

/// A section: what stands after `--- `, and the lines below it, each with its LF.
#[derive(Drop)]
pub struct Section<'a> {
    pub mark: &'a str,
    pub lines: Vec<u8>,
}

// Where a reader of escaped text stands: outside of an escape, behind its backslash, or behind its first digit.
#[derive(Clone, Copy, Debug, PartialEq, Eq)]
enum Escape {
    Outside,
    Begun,
    Digit { byte: u8, value: u8 },
}

// The value of a hexadecimal digit.
fn digit(byte: u8) -> Option<u8> {
    match byte {
        b'0'..=b'9' => Some(byte - b'0'),
        b'a'..=b'f' => Some(byte - b'a' + 10),
        b'A'..=b'F' => Some(byte - b'A' + 10),
        _ => None,
    }
}

// One more byte of an escaped text.
fn read_byte(state: Escape, byte: u8, text: &mut Vec<u8>) -> Result<Escape, NoMemory> {
    match state {
        Escape::Outside => {
            if byte == b'\\' {
                return Ok(Escape::Begun);
            }
            text.push(byte)?;
        }
        Escape::Begun => {
            if let Some(value) = digit(byte) {
                return Ok(Escape::Digit { byte, value });
            }
            text.push(b'\\')?;
            if byte != b'\\' {
                text.push(byte)?;
            }
        }
        Escape::Digit { byte: first, value } => {
            if let Some(low) = digit(byte) {
                text.push(value.wrapping_mul(16).wrapping_add(low))?;
            } else {
                text.push(b'\\')?;
                text.push(first)?;
                text.push(byte)?;
            }
        }
    }
    Ok(Escape::Outside)
}

// The text that an escaped one stands for: two digits behind a backslash are a byte, two backslashes one.
fn unescaped(alloc: Global, escaped: &[u8]) -> Result<Vec<u8>, NoMemory> {
    let mut text = Vec::new(alloc);
    let mut state = Escape::Outside;
    for byte in escaped {
        state = read_byte(state, *byte, &mut text)?;
    }
    Ok(text)
}

impl<'a> Section<'a> {
    /// The word that says what the section is, and what stands behind it.
    pub fn word(&self) -> (&'a str, &'a str) {
        match self.mark.split_once(' ') {
            Some((word, rest)) => (word, rest),
            None => (self.mark, ""),
        }
    }

    /// One more line.
    pub fn push_line(&mut self, line: &str) -> Result<(), NoMemory> {
        self.lines.extend_from_slice(line.as_bytes())?;
        self.lines.push(b'\n')?;
        Ok(())
    }

    /// The text of the section.
    pub fn text(&self, alloc: Global) -> Result<Vec<u8>, NoMemory> {
        let mut lines = Vec::from_slice(alloc, self.lines.as_slice())?;
        if self.mark.contains("without last LF") {
            let _ = lines.pop();
        }
        if self.mark.contains("escaped") {
            return unescaped(alloc, lines.as_slice());
        }
        Ok(lines)
    }
}
