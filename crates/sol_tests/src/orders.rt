// Orders of bases where the contract is named, and the lines of a text.

use crate::texts::file_of;
use chc_nums::NoMemory;
use sol_names::{NameFault, order};
use sol_reader::Lines;
use sol_tree::File;
use std::alloc::Global;
use std::test::Fail;

const DIAMOND: &str =
    "contract A { } contract B is A { } contract D is A { } contract E is B, D { }";

const BACKWARD: &str =
    "contract E is B, D { } contract D is A { } contract B is A { } contract A { }";

const UNKNOWN: &str = "contract A { } contract B is A, Z { } contract C { }";

// Whether a file has this order of the places of its units, or this fault.
fn is_order_of(
    alloc: Global,
    file: &File,
    name: Option<&str>,
    wanted: Result<&[u32], NameFault>,
) -> Result<bool, NoMemory> {
    match (order(alloc, file, name), wanted) {
        (Ok(lineage), Ok(units)) => Ok(lineage.units.as_slice() == units),
        (Err(NameFault::NoMemory), _) => Err(NoMemory),
        (Err(fault), Err(want)) => Ok(fault == want),
        (Ok(_), Err(_)) | (Err(_), Ok(_)) => Ok(false),
    }
}

fn is_order(
    alloc: Global,
    text: &str,
    name: Option<&str>,
    wanted: Result<&[u32], NameFault>,
) -> Result<bool, NoMemory> {
    match file_of(alloc, text)? {
        Ok(file) => is_order_of(alloc, &file, name, wanted),
        Err(_) => Ok(false),
    }
}

#[test]
fn bases_have_an_order(rt: HostRuntime) -> Result<(), Fail> {
    for (text, name, wanted) in [
        (DIAMOND, None, Ok(&[3u32, 2, 1, 0][..])),
        (DIAMOND, Some("D"), Ok(&[2, 0])),
        (BACKWARD, Some("E"), Ok(&[0, 1, 2, 3])),
        (DIAMOND, Some("C"), Err(NameFault::NoContract)),
        (UNKNOWN, Some("A"), Err(NameFault::UnknownBase { at: 32 })),
    ] {
        let is_right = is_order(rt.alloc(), text, name, wanted)?;
        assert!(rt; is_right);
    }
    Ok(())
}

fn has_places(alloc: Global) -> Result<bool, NoMemory> {
    let lines = Lines::new(alloc, b"ab\n\nc")?;
    for (at, line, column) in [
        (0, 1, 1),
        (2, 1, 3),
        (3, 2, 1),
        (4, 3, 1),
        (5, 3, 2),
        (4_294_967_295, 3, 2),
    ] {
        if lines.line(at) != line || lines.column(at) != column {
            return Ok(false);
        }
    }
    Ok(true)
}

#[test]
fn lines_have_places(rt: HostRuntime) -> Result<(), Fail> {
    let is_right = has_places(rt.alloc())?;
    assert!(rt; is_right);
    Ok(())
}
