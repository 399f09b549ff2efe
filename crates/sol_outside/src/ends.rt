// The ends of the program. What an end holds is optional: none where it doesn't tell.

ghost use Rattle.std.specs.Prelude.{◌≡◌, List, ℕ, Option};
ghost use Rattle.sol_outside.specs.Causes.{Reads, Puts};

use std::alloc::Global;

/// Why a read gave nothing: it failed, the file holds more bytes than asked for, or memory was wanting.
#[derive(Clone, Copy, Debug, PartialEq, Eq)]
pub enum ShelfFault {
    Failed,
    TooLong { max: u32 },
    NoMemory,
}

/// Why a put didn't write all: it failed, or memory was wanting.
#[derive(Clone, Copy, Debug, PartialEq, Eq)]
pub enum SinkFault {
    Failed,
    NoMemory,
}

/// What is read by name.
pub trait Shelf {
    /// The bytes under a name, where the shelf tells them.
    ghost holds: { Self → List ℕ → Option (List ℕ) };

    /// How many reads have failed. It stays at the end of its type.
    ghost faults: { Self → ℕ };

    /// The bytes under a name, at most `max` of them. `Failed` comes exactly where the count of faults rises, by this
    /// call's fault alone, and `TooLong` only where there are more bytes. No read changes what the shelf holds.
    fn read(&mut self, alloc: Global, name: &str, max: u32) -> Result<Vec<u8>, ShelfFault>
        ensures reads { Reads (faults self.old) (faults self.new) (holds self.old name.now) max result }
        ensures same { holds self.new ≡ holds self.old };
}

/// What is written to.
pub trait Sink {
    /// What was written, where the sink tells it.
    ghost written: { Self → Option (List ℕ) };

    /// How many puts have failed. It stays at the end of its type.
    ghost faults: { Self → ℕ };

    /// Writes the bytes at the end. After `Failed`, for which alone the count of faults rises, by this call's fault, a
    /// prefix of them was written; after `NoMemory` nothing was.
    fn put(&mut self, bytes: &[u8]) -> Result<(), SinkFault>
        ensures { Puts (faults self.old) (faults self.new) (written self.old) (written self.new) bytes.now result };
}

/// What each worker passes before it seeks at a target. It answers nothing.
pub trait Gate {
    fn pass(&self, worker: u32, target: u32);
}

/// A gate that lets every worker pass.
#[derive(Clone, Copy, Debug, PartialEq, Eq)]
pub struct OpenGate;

impl Gate for OpenGate {
    fn pass(&self, _worker: u32, _target: u32) {}
}
