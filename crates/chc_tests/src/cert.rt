// Multipliers that refute rows, and multipliers that don't.

use crate::counter::sum;
use chc_cert::passes;
use chc_form::Row;
use chc_nums::{List, NoMemory};
use std::alloc::Global;
use std::test::Fail;

// A variable is at most 1 and at least a number.
fn between(alloc: Global, least: i128) -> Result<List<Row>, NoMemory> {
    let mut rows = List::new(alloc);
    for (factor, konst) in [(1, -1), (-1, least)] {
        rows.push(Row {
            lin: sum(alloc, &[(3, factor)], konst)?,
        })?;
    }
    Ok(rows)
}

fn refute(alloc: Global, multipliers: &[i128], least: i128) -> Result<bool, NoMemory> {
    let rows = between(alloc, least)?;
    passes(alloc, multipliers, rows.as_slice())
}

#[test]
fn multipliers_are_tested(rt: HostRuntime) -> Result<(), Fail> {
    for (least, multipliers, want) in [
        (2, &[1i128, 1][..], true),
        (2, &[5, 5][..], true),
        (2, &[1, 2][..], false),
        (2, &[-1, -1][..], false),
        (2, &[0, 0][..], false),
        (2, &[1][..], false),
        (2, &[i128::MAX, i128::MAX][..], false),
        (1, &[1, 1][..], false),
    ] {
        let got = refute(rt.alloc(), multipliers, least)?;
        assert_eq!(rt; got, want);
    }
    Ok(())
}
