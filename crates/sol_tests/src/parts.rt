// Bytes that come and go in parts.

use chc_nums::NoMemory;
use sol_outside::{MemReader, MemWriter, PartStep, ShelfFault, SinkFault, read_all, write_all};
use std::alloc::Global;
use std::test::Fail;

const TEXT: &[u8] = b"contract C { }";

// What is read of the text in these steps: all of it, or a fault.
fn read(alloc: Global, steps: &[PartStep], max: u32) -> Result<Result<bool, ShelfFault>, NoMemory> {
    let steps = Vec::from_slice(alloc, steps)?;
    let mut reader = MemReader::new(Vec::from_slice(alloc, TEXT)?, steps);
    match read_all(alloc, &mut reader, max) {
        Ok(bytes) => Ok(Ok(bytes.as_slice() == TEXT)),
        Err(ShelfFault::NoMemory) => Err(NoMemory),
        Err(fault) => Ok(Err(fault)),
    }
}

#[test]
fn parts_are_read(rt: HostRuntime) -> Result<(), Fail> {
    for (steps, max, want) in [
        (
            &[PartStep::AtMost(1), PartStep::AtMost(5)][..],
            14,
            Ok(true),
        ),
        (
            &[PartStep::AtMost(9), PartStep::Fails][..],
            14,
            Err(ShelfFault::Failed),
        ),
        (
            &[PartStep::AtMost(9)][..],
            13,
            Err(ShelfFault::TooLong { max: 13 }),
        ),
    ] {
        let got = read(rt.alloc(), steps, max)?;
        assert_eq!(rt; got, want);
    }
    Ok(())
}

// What comes of writing the text in these steps, and how many of its bytes are taken. The writer has memory for all.
fn written(alloc: Global, steps: &[PartStep]) -> Result<(Option<SinkFault>, usize), NoMemory> {
    let mut writer = MemWriter::new(alloc, Vec::from_slice(alloc, steps)?);
    writer.taken.reserve(TEXT.len())?;
    let fault = write_all(&mut writer, TEXT).err();
    Ok((fault, writer.taken.len()))
}

#[test]
fn parts_are_written(rt: HostRuntime) -> Result<(), Fail> {
    for (steps, want) in [
        (&[PartStep::AtMost(1), PartStep::AtMost(8)][..], (None, 14)),
        (
            &[PartStep::AtMost(9), PartStep::AtMost(0)][..],
            (Some(SinkFault::Failed), 9),
        ),
        (
            &[PartStep::AtMost(9), PartStep::Fails][..],
            (Some(SinkFault::Failed), 9),
        ),
    ] {
        let got = written(rt.alloc(), steps)?;
        assert_eq!(rt; got, want);
    }
    Ok(())
}
