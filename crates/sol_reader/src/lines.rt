// Lines and columns of a text.

ghost use Rattle.std.specs.Prelude.{◌≡◌, ◌≤◌, ◌<◌, ◌++◌, length, List, IfOk, leb};
ghost use Rattle.std.specs.List.Sorted.{IsNonDecreasingBy};
ghost use Rattle.chc_nums.specs.declared.limits.TheConstants.{MAX_FILE_BYTES};
ghost use Rattle.sol_reader.specs.Places.{line_of, column_of};
ghost use Rattle.sol_reader.specs.Starts.{AreStarts, starts_from, begun, last_of};

use chc_nums::{List, NoMemory};
use std::alloc::Global;
use std::marker::Model;

/// A text of at most `MAX_FILE_BYTES` bytes, with the places where its lines begin. Contracts see it as the text.
#[derive(Drop)]
pub struct Lines<'a> {
    text: &'a [u8],
    starts: List<u32>,
}

impl<'a> Model for Lines<'a> {
    ghost use Rattle.std.specs.Prelude.{List, ℕ};
    ghost use Rattle.sol_reader.specs.Starts.{AreStarts};

    ghost Value = { List ℕ };

    ghost view = { λ l. l.text.now };

    ghost invariant = { λ l. AreStarts l.starts l.text.now };
}

// The places where lines begin, but for the first.
fn starts(alloc: Global, text: &[u8]) -> Result<List<u32>, NoMemory>
    requires { length text.now ≤ MAX_FILE_BYTES }
    ensures { IfOk result (λ ss. ss ≡ starts_from 0 text.now) }
{
    let mut starts = List::new(alloc);
    let mut at = 0;
    for byte in text {
        at += 1;
        if *byte == b'\n' {
            starts.push(at)?;
        }
    }
    Ok(starts)
}

// How many lines begin before a place or at it, but for the first.
fn begun(starts: &[u32], at: u32) -> usize
    requires { IsNonDecreasingBy (λ s. s) starts.now }
    ensures value { result ≡ begun starts.now at }
    ensures bound { result ≤ length starts.now }
{
    starts.partition_point(
        |s: &u32| -> bool
            ensures { result ≡ leb s.now at }
        { *s <= at },
    )
}

// Where the last line begins that begins before a place or at it.
#[tactic(auto, using(crate::proofs::Points::lasts))]
fn start(starts: &[u32], at: u32) -> u32
    requires { IsNonDecreasingBy (λ s. s) starts.now }
    ensures value { result ≡ last_of 0 starts.now (begun starts.now at) }
    ensures bound { result ≤ at }
{
    let count = begun(starts, at);
    if count == 0 { 0 } else { starts[count - 1] }
}

#[tactic(auto, using(crate::proofs::Points::of_text))]
fn line_in(text: &[u8], starts: &[u32], at: u32) -> u32
    requires { AreStarts starts.now text.now }
    ensures { result ≡ line_of text.now at }
{
    let end = text.len() as u32;
    begun(starts, at.min(end)) as u32 + 1
}

#[tactic(auto, using(crate::proofs::Points::of_text))]
fn column_in(text: &[u8], starts: &[u32], at: u32) -> u32
    requires { AreStarts starts.now text.now }
    ensures { result ≡ column_of text.now at }
{
    let end = text.len() as u32;
    let at = at.min(end);
    at - start(starts, at) + 1
}

impl Lines<'_> {
    /// The lines of a text.
    pub fn new(alloc: Global, text: &[u8]) -> Result<Lines<'_>, NoMemory>
        requires { length text.now ≤ MAX_FILE_BYTES }
        ensures { IfOk result (λ l. l ≡ text.now) }
    {
        let starts = starts(alloc, text)?;
        Ok(Lines { text, starts })
    }

    /// The line of the byte at a place, from 1. Past the end it is that of the end.
    pub fn line(&self, at: u32) -> u32
        ensures { result ≡ line_of self.now at }
    {
        line_in(self.text, self.starts.as_slice(), at)
    }

    /// The column of the byte at a place, from 1. Past the end it is that of the end.
    pub fn column(&self, at: u32) -> u32
        ensures { result ≡ column_of self.now at }
    {
        column_in(self.text, self.starts.as_slice(), at)
    }
}
