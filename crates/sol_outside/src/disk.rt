// Files and standard output, by the loops over parts. They tell nothing of content.

ghost use Rattle.std.specs.Prelude.{◌≡◌, ◌≢◌, None, Err};
ghost use Rattle.sol_outside.specs.Causes.{Puts};

use crate::ends::{Shelf, ShelfFault, Sink, SinkFault};
use crate::parts::{ByteReader, ByteWriter, PartFault, read_all, write_all};
use std::alloc::Global;
use std::fs;
use std::io::Read;
use std::rt::Files;

// An open file, and how many calls on it and on those before it have failed.
#[derive(Drop)]
struct OpenFile<F> {
    file: F,
    faults: u64,
}

impl<F: Read> ByteReader for OpenFile<F> {
    ghost left = { λ s. F.remaining s.file };

    ghost faults = { λ s. s.faults };

    fn read(&mut self, part: &mut [u8]) -> Result<usize, PartFault> {
        match self.file.read(part) {
            Ok(n) => Ok(n),
            Err(_) => {
                self.faults = self.faults.saturating_add(1);
                Err(PartFault)
            }
        }
    }
}

/// Files, by their paths, and how many reads have failed.
#[derive(Drop)]
pub struct FileShelf<'a, R> {
    rt: &'a R,
    pub faults: u64,
}

impl<'a, R: Files> FileShelf<'a, R> {
    /// The files of the runtime, with no fault so far.
    pub fn new(rt: &'a R) -> FileShelf<'a, R>
        ensures { result.faults ≡ 0 }
    {
        FileShelf { rt, faults: 0 }
    }
}

impl<R: Files> Shelf for FileShelf<'_, R> {
    ghost holds = { λ s name. None };

    ghost faults = { λ s. s.faults };

    fn read(&mut self, alloc: Global, name: &str, max: u32) -> Result<Vec<u8>, ShelfFault> {
        let Ok(file) = fs::open(self.rt, name) else {
            self.faults = self.faults.saturating_add(1);
            return Err(ShelfFault::Failed);
        };
        let faults = self.faults;
        let mut open = OpenFile { file, faults };
        let answer = read_all(alloc, &mut open, max);
        self.faults = open.faults;
        answer
    }
}

/// Standard output, and how many puts have failed.
#[derive(Drop)]
pub struct StdSink<'a, R> {
    rt: &'a R,
    pub faults: u64,
}

impl<'a, R: Print> StdSink<'a, R> {
    /// The runtime's standard output, with no fault so far.
    pub fn new(rt: &'a R) -> StdSink<'a, R>
        ensures { result.faults ≡ 0 }
    {
        StdSink { rt, faults: 0 }
    }
}

impl<R: Print> ByteWriter for StdSink<'_, R> {
    ghost taken = { λ s. None };

    ghost faults = { λ s. s.faults };

    fn write(&mut self, bytes: &[u8]) -> Result<usize, PartFault> {
        let answer = self.rt.write_some(bytes);
        if let Ok(n) = answer
            && n > 0
        {
            return Ok(n);
        }
        self.faults = self.faults.saturating_add(1);
        Err(PartFault)
    }
}

impl<R: Print> Sink for StdSink<'_, R> {
    ghost written = { λ s. None };

    ghost faults = { λ s. s.faults };

    fn put(&mut self, bytes: &[u8]) -> Result<(), SinkFault> {
        write_all(self, bytes)
    }
}
