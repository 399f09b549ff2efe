//! The outside of the program: files that are read by name, text that is written, and a gate that workers pass. Each
//! end counts its faults; `Shelf::read` and `Sink::put` say what every answer means and when it may come.
#![tactic(auto)]

mod disk;
mod ends;
mod memory;
mod parts;
mod told_parts;

pub use disk::{FileShelf, StdSink};
pub use ends::{Gate, OpenGate, Shelf, ShelfFault, Sink, SinkFault};
pub use memory::{MemShelf, MemSink};
pub use parts::{ByteReader, ByteWriter, PartFault, read_all, write_all};
pub use told_parts::{MemReader, MemWriter, PartStep};
