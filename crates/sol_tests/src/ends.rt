// Files and output, in memory and outside.

use chc_nums::NoMemory;
use sol_outside::{
    FileShelf, Gate, MemShelf, MemSink, OpenGate, Shelf, ShelfFault, Sink, SinkFault, StdSink,
};
use std::alloc::Global;
use std::fs;
use std::test::Fail;

fn files(alloc: Global) -> Result<Vec<(String, Vec<u8>)>, NoMemory> {
    let mut files = Vec::new(alloc);
    let bytes = Vec::from_slice(alloc, b"abc")?;
    files.push((String::from_str(alloc, "a.sol")?, bytes))?;
    Ok(files)
}

// Whether a read gives these bytes.
fn gives(read: Result<Vec<u8>, ShelfFault>, want: &[u8]) -> Result<bool, NoMemory> {
    match read {
        Ok(bytes) => Ok(bytes.as_slice() == want),
        Err(ShelfFault::NoMemory) => Err(NoMemory),
        Err(_) => Ok(false),
    }
}

// Whether a read fails so.
fn fails(read: Result<Vec<u8>, ShelfFault>, want: ShelfFault) -> Result<bool, NoMemory> {
    match read {
        Ok(_) => Ok(false),
        Err(ShelfFault::NoMemory) => Err(NoMemory),
        Err(fault) => Ok(fault == want),
    }
}

// Whether a put writes all, or fails where that is wanted.
fn ends(put: Result<(), SinkFault>, is_whole: bool) -> Result<bool, NoMemory> {
    match put {
        Ok(()) => Ok(is_whole),
        Err(SinkFault::NoMemory) => Err(NoMemory),
        Err(SinkFault::Failed) => Ok(!is_whole),
    }
}

// Files in memory, of which one read fails.
fn has_files(alloc: Global) -> Result<bool, NoMemory> {
    let failing = Vec::from_slice(alloc, &[2u32])?;
    let mut shelf = MemShelf::new(files(alloc)?, failing);
    let long = ShelfFault::TooLong { max: 2 };
    Ok(
        gives(shelf.read(alloc, "a.sol", 3), b"abc")?
            && fails(shelf.read(alloc, "a.sol", 2), long)?
            && fails(shelf.read(alloc, "a.sol", 3), ShelfFault::Failed)?
            && fails(shelf.read(alloc, "b.sol", 3), ShelfFault::Failed)?
            && gives(shelf.read(alloc, "a.sol", 9), b"abc")?
            && shelf.faults == 2,
    )
}

// Output in memory, of which one put fails after two bytes.
fn has_output(alloc: Global) -> Result<bool, NoMemory> {
    let failing = Vec::from_slice(alloc, &[(1u32, 2u32)])?;
    let mut sink = MemSink::new(alloc, failing);
    Ok(
        ends(sink.put(b"one"), true)?
            && ends(sink.put(b"two"), false)?
            && ends(sink.put(b"!"), true)?
            && sink.written() == b"onetw!".as_slice()
            && sink.faults == 1,
    )
}

#[test]
fn files_and_output_in_memory(rt: HostRuntime) -> Result<(), Fail> {
    let is_right = has_files(rt.alloc())? && has_output(rt.alloc())?;
    assert!(rt; is_right);
    OpenGate.pass(0, 1);
    Ok(())
}

fn has_outside_files(rt: &HostRuntime) -> Result<bool, NoMemory> {
    let alloc = rt.alloc();
    let mut shelf = FileShelf::new(rt);
    let long = ShelfFault::TooLong { max: 13 };
    Ok(
        gives(shelf.read(alloc, "long.sol", 14), b"contract C { }")?
            && fails(shelf.read(alloc, "long.sol", 13), long)?
            && fails(shelf.read(alloc, "none.sol", 14), ShelfFault::Failed)?
            && shelf.faults == 1,
    )
}

fn has_outside_output(rt: &HostRuntime) -> Result<bool, NoMemory> {
    let mut sink = StdSink::new(rt);
    Ok(ends(sink.put(b""), true)? && ends(sink.put(b"written\n"), true)? && sink.faults == 0)
}

#[test]
fn files_and_output_outside(rt: HostRuntime) -> Result<(), Fail> {
    fs::write(&rt, "long.sol", "contract C { }")?;
    let is_right = has_outside_files(&rt)? && has_outside_output(&rt)?;
    assert!(rt; is_right);
    Ok(())
}
