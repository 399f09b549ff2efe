// Runs whose answers are known.

ghost use Rattle.std.specs.Bool.{OnTrue};
ghost use Rattle.chc_form.specs.Linear.{Ascend, AscendFrom, AllAscend};
ghost use Rattle.chc_form.specs.Linear.{lins};

use crate::counter::{Terms, sum};
use chc_form::Row;
use chc_nums::NoMemory;
use chc_simplex::{Lp, solve};
use std::alloc::Global;
use std::test::Fail;

fn rows(alloc: Global, cases: &[Terms]) -> Result<Vec<Row>, NoMemory> {
    let mut made = Vec::new(alloc);
    for (terms, konst) in cases {
        made.push(Row {
            lin: sum(alloc, *terms, *konst)?,
        })?;
    }
    Ok(made)
}

fn ascends_from(first: u32, terms: &[(u32, i128)]) -> bool
    ensures { OnTrue result (AscendFrom first terms.now) }
{
    let mut last = first;
    let mut rest = terms;
    while let [(v, a), more @ ..] = rest {
        if *v <= last || *a == 0 {
            return false;
        }
        last = *v;
        rest = more;
    }
    true
}

fn ascends(terms: &[(u32, i128)]) -> bool
    ensures { OnTrue result (Ascend terms.now) }
{
    match terms {
        [] => true,
        [(v, a), more @ ..] => *a != 0 && ascends_from(*v, more),
    }
}

fn all_ascend(rows: &[Row]) -> bool
    ensures { OnTrue result (AllAscend (lins rows.now)) }
{
    let mut rest = rows;
    while let [row, more @ ..] = rest {
        if !ascends(row.lin.terms.as_slice()) {
            return false;
        }
        rest = more;
    }
    true
}

fn text(alloc: Global, answer: &Lp) -> Result<String, Fail> {
    match answer {
        Lp::Infeasible(ms) => Ok(format!(in alloc; "infeasible {:?}", ms.as_slice())?),
        Lp::Feasible(xs, d) => Ok(format!(in alloc; "feasible {:?} over {}", xs.as_slice(), d)?),
        Lp::Wide => Ok(format!(in alloc; "wide")?),
        Lp::Pivots => Ok(format!(in alloc; "pivots")?),
    }
}

fn answered(alloc: Global, cases: &[Terms], pivots: u32) -> Result<String, Fail> {
    let made = rows(alloc, cases)?;
    if made.len() > 8 || !all_ascend(made.as_slice()) {
        return Ok(String::from_str(alloc, "not in order")?);
    }
    let answer = solve(alloc, made.as_slice(), pivots)?;
    text(alloc, &answer)
}

const FAR: i128 = 0x4000_0000_0000_0000_0000_0000_0000_0000;

#[test]
fn known_answers(rt: HostRuntime) -> Result<(), Fail> {
    let table: [(&[Terms], u32, &str); 8] = [
        (&[], 0, "feasible [] over 1"),
        (&[(&[(0, 1)], 0), (&[], 5)], 0, "infeasible [0, 1]"),
        // x at most 1 and at least 2
        (&[(&[(0, 1)], -1), (&[(0, -1)], 2)], 9, "infeasible [1, 1]"),
        // 2 x = 1, with too few pivots and enough
        (&[(&[(0, 2)], -1), (&[(0, -2)], 1)], 0, "pivots"),
        (
            &[(&[(0, 2)], -1), (&[(0, -2)], 1)],
            1,
            "feasible [1] over 2",
        ),
        (
            &[(&[(0, -2)], 1), (&[(1, -3)], 1)],
            9,
            "feasible [3, 2] over 6",
        ),
        (&[(&[(0, -4)], 2), (&[(0, 6)], -2)], 9, "infeasible [3, 2]"),
        // coefficients of 126 bits
        (
            &[(&[(0, -FAR)], 1), (&[(0, 3)], -1), (&[(0, 5)], FAR)],
            9,
            "wide",
        ),
    ];
    for (cases, pivots, want) in table {
        let got = answered(rt.alloc(), cases, pivots)?;
        assert_eq!(rt; got.as_str(), want);
    }
    Ok(())
}
