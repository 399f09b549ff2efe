// Bytes that come and go in parts, and the loops over the parts.

ghost use Rattle.std.specs.Prelude.{◌≡◌, ◌≢◌, ◌≤◌, ◌<◌, ◌+◌, List, ℕ, Option, length, vec_len, Err};
ghost use Rattle.sol_outside.specs.Causes.{Reads, Puts};
ghost use Rattle.sol_outside.specs.Parts.{ReadsPart, ReadsOn, WritesPart};

use crate::ends::{ShelfFault, SinkFault};
use std::alloc::Global;

// The most bytes that one call reads.
const PART: usize = 4096;

/// A call on a reader or a writer of bytes failed.
#[derive(Clone, Copy, Debug, PartialEq, Eq)]
pub struct PartFault;

/// Bytes that are read in parts.
pub trait ByteReader {
    /// The bytes that are left, where the reader tells them.
    ghost left: { Self → Option (List ℕ) };

    /// How many calls have failed. It stays at the end of its type.
    ghost faults: { Self → ℕ };

    /// Puts the first of the bytes that are left into the part, and answers how many: 0 at the end only. There may be
    /// fewer than the part has room for.
    fn read(&mut self, part: &mut [u8]) -> Result<usize, PartFault>
        ensures { ReadsPart (faults self.old) (faults self.new) (left self.old) (left self.new) part.new result };
}

/// What takes bytes in parts.
pub trait ByteWriter {
    /// The bytes that were taken, where the writer tells them.
    ghost taken: { Self → Option (List ℕ) };

    /// How many calls have failed: they answered a fault, or took nothing. It stays at the end of its type.
    ghost faults: { Self → ℕ };

    /// Takes the first of the bytes, and answers how many: there may be fewer than all.
    fn write(&mut self, bytes: &[u8]) -> Result<usize, PartFault>
        ensures { WritesPart (faults self.old) (faults self.new) (taken self.old) (taken self.new) bytes.now result };
}

// How many bytes to ask for: one more than may be read in all shows that there are too many.
fn room(max: u32, read: usize) -> usize
    requires { read ≤ max }
    ensures some { 0 < result }
    ensures part { result ≤ 4096 }
    ensures most { read + result ≤ max + 1 }
{
    let left = max as usize + 1 - read;
    left.min(PART)
}

// Reads one more part to the end of the bytes; false where nothing is left.
fn read_on<R: ByteReader>(reader: &mut R, max: u32, bytes: &mut Vec<u8>) -> Result<bool, ShelfFault>
    requires { vec_len bytes.old ≤ max }
    ensures { ReadsOn (R.faults reader.old) (R.faults reader.new) (R.left reader.old) (R.left reader.new) max bytes.old.items bytes.new.items result }
{
    let mut part = [0u8; PART];
    let room = room(max, bytes.len());
    match reader.read(&mut part[..room]) {
        Err(_) => Err(ShelfFault::Failed),
        Ok(0) => Ok(false),
        Ok(n) => {
            if bytes.len() + n > max as usize {
                return Err(ShelfFault::TooLong { max });
            }
            match bytes.extend_from_slice(&part[..n]) {
                Ok(()) => Ok(true),
                Err(_) => Err(ShelfFault::NoMemory),
            }
        }
    }
}

/// All bytes that are left, where there are at most `max` of them. A fault before the end is `Failed`.
pub fn read_all<R: ByteReader>(
    alloc: Global,
    reader: &mut R,
    max: u32,
) -> Result<Vec<u8>, ShelfFault>
    ensures { Reads (R.faults reader.old) (R.faults reader.new) (R.left reader.old) max result }
{
    let mut bytes = Vec::new(alloc);
    loop {
        match read_on(reader, max, &mut bytes) {
            Ok(true) => {}
            Ok(false) => return Ok(bytes),
            Err(fault) => return Err(fault),
        }
    }
}

/// Writes all bytes, in order. A write that takes only the first of them goes on after these, and one that takes nothing
/// has failed. It wants no memory.
#[tactic(auto, using(crate::proofs::Writing::writing))]
pub fn write_all<W: ByteWriter>(writer: &mut W, bytes: &[u8]) -> Result<(), SinkFault>
    ensures puts { Puts (W.faults writer.old) (W.faults writer.new) (W.taken writer.old) (W.taken writer.new) bytes.now result }
    ensures memory { result ≢ Err SinkFault.NoMemory }
{
    let mut done = 0;
    while done < bytes.len() {
        match writer.write(&bytes[done..]) {
            Err(_) => return Err(SinkFault::Failed),
            Ok(n) => {
                if n == 0 {
                    return Err(SinkFault::Failed);
                }
                done += n;
            }
        }
    }
    Ok(())
}
