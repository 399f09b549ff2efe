// Bytes in memory that come and go in parts, with calls that are told by their numbers to be short or to fail.

ghost use Rattle.std.specs.Prelude.{◌≡◌, ◌≤◌, ◌<◌, ◌+◌, ◌-◌, ◌^◌, min, [], length, take, drop, Some, slice_get};
ghost use Rattle.sol_outside.specs.Parts.{ReadsPart, WritesPart};
ghost use Rattle.sol_outside.specs.Steps.{step_of, given, ReadsAsStep, WritesAsStep};

use crate::parts::{ByteReader, ByteWriter, PartFault};
use std::alloc::Global;

/// What a call is told to do: to move at most so many bytes, or to fail.
#[derive(Clone, Copy, Debug, PartialEq, Eq)]
pub enum PartStep {
    AtMost(u32),
    Fails,
}

// What the call of a number is told; those past the list move what they can.
fn step_of(steps: &[PartStep], number: u32) -> PartStep
    ensures { result ≡ step_of steps.now number }
{
    match steps.get(number as usize).copied() {
        Some(step) => step,
        None => PartStep::AtMost(u32::MAX),
    }
}

/// Bytes that are read from memory in parts, from `at` on. The call of each number, from 0, does its step; one that is
/// told to read nothing reads one byte, since nothing comes at the end only.
#[derive(Drop)]
pub struct MemReader {
    pub bytes: Vec<u8>,
    pub at: usize,
    pub steps: Vec<PartStep>,
    pub next: u32,
    pub faults: u64,
    ghost in_range: { at ≤ length bytes.items },
}

impl MemReader {
    /// Bytes of which none was read so far.
    pub fn new(bytes: Vec<u8>, steps: Vec<PartStep>) -> MemReader
        ensures bytes { (result.bytes ≡ bytes) × (result.at ≡ 0) }
        ensures steps { result.steps ≡ steps }
        ensures start { (result.next ≡ 0) × (result.faults ≡ 0) }
    {
        MemReader {
            bytes,
            at: 0,
            steps,
            next: 0,
            faults: 0,
        }
    }
}

// Copies the first bytes, as many as a step allows and the part has room for.
fn give(from: &[u8], most: u32, part: &mut [u8]) -> usize
    ensures count { result ≡ given most (length from.now) (length part.old) }
    ensures bytes { take result part.new ≡ take result from.now }
    ensures within { (result ≤ length from.now) × (result ≤ length part.new) }
    ensures some { 0 < length from.now → 0 < length part.new → 0 < result }
{
    let n = (most as usize).max(1).min(from.len()).min(part.len());
    part[..n].copy_from_slice(&from[..n]);
    n
}

impl ByteReader for MemReader {
    ghost use Rattle.std.specs.Prelude.{drop, Some};

    ghost left = { λ s. Some (drop s.at s.bytes.items) };

    ghost faults = { λ s. s.faults };

    fn read(&mut self, part: &mut [u8]) -> Result<usize, PartFault>
        ensures reads { ReadsPart self.old.faults self.new.faults (Some (drop self.old.at self.old.bytes.items)) (Some (drop self.new.at self.new.bytes.items)) part.new result }
        ensures told { ReadsAsStep (step_of self.old.steps.items self.old.next) (length (drop self.old.at self.old.bytes.items)) (length part.old) result }
        ensures number { self.new.next ≡ min (self.old.next + 1) (2 ^ 32 - 1) }
        ensures bytes { self.new.bytes ≡ self.old.bytes }
        ensures steps { self.new.steps ≡ self.old.steps }
    {
        let step = step_of(self.steps.as_slice(), self.next);
        self.next = self.next.saturating_add(1);
        match step {
            PartStep::Fails => {
                self.faults = self.faults.saturating_add(1);
                Err(PartFault)
            }
            PartStep::AtMost(most) => {
                let n = give(&self.bytes.as_slice()[self.at..], most, part);
                self.at += n;
                Ok(n)
            }
        }
    }
}

/// Bytes that memory takes in parts. The call of each number, from 0, does its step; want of memory is a fault.
#[derive(Drop)]
pub struct MemWriter {
    pub taken: Vec<u8>,
    pub steps: Vec<PartStep>,
    pub next: u32,
    pub faults: u64,
}

impl MemWriter {
    /// A writer that has taken nothing so far.
    pub fn new(alloc: Global, steps: Vec<PartStep>) -> MemWriter
        ensures taken { result.taken.items ≡ [] }
        ensures steps { result.steps ≡ steps }
        ensures start { (result.next ≡ 0) × (result.faults ≡ 0) }
    {
        MemWriter {
            taken: Vec::new(alloc),
            steps,
            next: 0,
            faults: 0,
        }
    }
}

impl ByteWriter for MemWriter {
    ghost use Rattle.std.specs.Prelude.{Some};

    ghost taken = { λ s. Some s.taken.items };

    ghost faults = { λ s. s.faults };

    fn write(&mut self, bytes: &[u8]) -> Result<usize, PartFault>
        ensures writes { WritesPart self.old.faults self.new.faults (Some self.old.taken.items) (Some self.new.taken.items) bytes.now result }
        ensures told { WritesAsStep (step_of self.old.steps.items self.old.next) (length bytes.now) result }
        ensures number { self.new.next ≡ min (self.old.next + 1) (2 ^ 32 - 1) }
        ensures steps { self.new.steps ≡ self.old.steps }
    {
        let step = step_of(self.steps.as_slice(), self.next);
        self.next = self.next.saturating_add(1);
        if let PartStep::AtMost(most) = step {
            let n = bytes.len().min(most as usize);
            if n > 0 {
                if self.taken.extend_from_slice(&bytes[..n]).is_ok() {
                    return Ok(n);
                }
            } else {
                self.faults = self.faults.saturating_add(1);
                return Ok(0);
            }
        }
        self.faults = self.faults.saturating_add(1);
        Err(PartFault)
    }
}
