// Files and output in memory, with calls that fail by number.

ghost use Rattle.std.specs.Prelude.{◌≡◌, [], List, ℕ, Option, Some, None, MatchOption, length, ◌≤◌, ◌+◌, ◌-◌, ◌^◌, min};
ghost use Rattle.sol_outside.specs.Causes.{Reads, Puts};
ghost use Rattle.sol_outside.specs.Held.{held};
ghost use Rattle.sol_outside.specs.Numbered.{is_told, told_cut, ReadsAsTold, PutsAsTold};

use crate::ends::{Shelf, ShelfFault, Sink, SinkFault};
use std::alloc::Global;

/// Files in memory: the first of a name counts. The reads numbered in `fails`, from 0, fail first of all; so does a
/// name that isn't there.
#[derive(Drop)]
pub struct MemShelf {
    pub files: Vec<(String, Vec<u8>)>,
    pub fails: Vec<u32>,
    pub next: u32,
    pub faults: u64,
}

impl MemShelf {
    /// Files from which nothing was read so far.
    pub fn new(files: Vec<(String, Vec<u8>)>, fails: Vec<u32>) -> MemShelf
        ensures files { result.files ≡ files }
        ensures fails { result.fails ≡ fails }
        ensures start { (result.next ≡ 0) × (result.faults ≡ 0) }
    {
        MemShelf {
            files,
            fails,
            next: 0,
            faults: 0,
        }
    }
}

fn find<'a>(files: &'a [(String, Vec<u8>)], name: &str) -> Option<&'a [u8]>
    ensures { MatchOption result (held files.now name.now ≡ None) (λ bytes. held files.now name.now ≡ Some bytes.now) }
{
    let mut rest = files;
    while let [(key, bytes), more @ ..] = rest {
        if key.as_str() == name {
            return Some(bytes.as_slice());
        }
        rest = more;
    }
    None
}

// Whether a number stands in a list.
fn is_told(fails: &[u32], number: u32) -> bool
    ensures { result ≡ is_told fails.now number }
{
    for told in fails {
        if *told == number {
            return true;
        }
    }
    false
}

impl Shelf for MemShelf {
    ghost use Rattle.sol_outside.specs.Held.{held};

    ghost holds = { λ s name. held s.files.items name };

    ghost faults = { λ s. s.faults };

    fn read(&mut self, alloc: Global, name: &str, max: u32) -> Result<Vec<u8>, ShelfFault>
        ensures reads { Reads self.old.faults self.new.faults (held self.old.files.items name.now) max result }
        ensures told { ReadsAsTold (is_told self.old.fails.items self.old.next) (held self.old.files.items name.now) max result }
        ensures number { self.new.next ≡ min (self.old.next + 1) (2 ^ 32 - 1) }
        ensures files { self.new.files ≡ self.old.files }
        ensures fails { self.new.fails ≡ self.old.fails }
    {
        let number = self.next;
        self.next = self.next.saturating_add(1);
        if is_told(self.fails.as_slice(), number) {
            self.faults = self.faults.saturating_add(1);
            return Err(ShelfFault::Failed);
        }
        let Some(bytes) = find(self.files.as_slice(), name) else {
            self.faults = self.faults.saturating_add(1);
            return Err(ShelfFault::Failed);
        };
        if bytes.len() > max as usize {
            return Err(ShelfFault::TooLong { max });
        }
        match Vec::from_slice(alloc, bytes) {
            Ok(read) => Ok(read),
            Err(_) => Err(ShelfFault::NoMemory),
        }
    }
}

/// Output in memory. The put numbered by the first number of an entry of `fails`, from 0, fails after the second
/// number of bytes, or after all bytes where there are fewer.
#[derive(Drop)]
pub struct MemSink {
    pub held: Vec<u8>,
    pub fails: Vec<(u32, u32)>,
    pub next: u32,
    pub faults: u64,
}

impl MemSink {
    /// An empty output.
    pub fn new(alloc: Global, fails: Vec<(u32, u32)>) -> MemSink
        ensures held { result.held.items ≡ [] }
        ensures fails { result.fails ≡ fails }
        ensures start { (result.next ≡ 0) × (result.faults ≡ 0) }
    {
        MemSink {
            held: Vec::new(alloc),
            fails,
            next: 0,
            faults: 0,
        }
    }

    /// What was written.
    pub fn written(&self) -> &[u8]
        ensures { result.now ≡ self.now.held.items }
    {
        self.held.as_slice()
    }
}

// After how many bytes the put of a number is told to fail.
fn told_cut(fails: &[(u32, u32)], number: u32) -> Option<u32>
    ensures { result ≡ told_cut fails.now number }
{
    for entry in fails {
        if entry.0 == number {
            return Some(entry.1);
        }
    }
    None
}

impl Sink for MemSink {
    ghost written = { λ s. Some s.held.items };

    ghost faults = { λ s. s.faults };

    fn put(&mut self, bytes: &[u8]) -> Result<(), SinkFault>
        ensures puts { Puts self.old.faults self.new.faults (Some self.old.held.items) (Some self.new.held.items) bytes.now result }
        ensures told { PutsAsTold (told_cut self.old.fails.items self.old.next) self.old.held.items self.new.held.items bytes.now result }
        ensures number { self.new.next ≡ min (self.old.next + 1) (2 ^ 32 - 1) }
        ensures fails { self.new.fails ≡ self.old.fails }
    {
        let cut = told_cut(self.fails.as_slice(), self.next);
        self.next = self.next.saturating_add(1);
        let Some(after) = cut else {
            return match self.held.extend_from_slice(bytes) {
                Ok(()) => Ok(()),
                Err(_) => Err(SinkFault::NoMemory),
            };
        };
        let some = &bytes[..bytes.len().min(after as usize)];
        match self.held.extend_from_slice(some) {
            Ok(()) => {
                self.faults = self.faults.saturating_add(1);
                Err(SinkFault::Failed)
            }
            Err(_) => Err(SinkFault::NoMemory),
        }
    }
}
