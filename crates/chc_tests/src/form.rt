// What the tests of systems and lemmas refuse, and copies.

use crate::counter::{Terms, at_most_zero, counter, lemma, sum};
use chc_form::{KeyTerm, Lemma, Lit, LitTerm, Row, of_system, well_made};
use chc_nums::{List, NoMemory, Ty};
use std::alloc::Global;
use std::test::Fail;

// Whether the counter is well made, where its query has this one constraint.
fn passes(alloc: Global, con: Terms) -> Result<bool, NoMemory> {
    let mut s = counter(alloc)?;
    let Some(query) = s.queries.pop() else {
        return Ok(false);
    };
    let chc_form::Query {
        vars,
        body,
        target,
        ..
    } = query;
    let cons = at_most_zero(alloc, &[con])?;
    s.queries.push(chc_form::Query {
        vars,
        body,
        cons,
        target,
    })?;
    Ok(well_made(&s))
}

#[test]
fn systems_are_tested(rt: HostRuntime) -> Result<(), Fail> {
    let table: [(Terms, bool); 4] = [
        ((&[(0, 2)], 5), true),
        ((&[(0, 2), (0, 1)], 5), false),
        ((&[(0, 0)], 5), false),
        ((&[(1, 1)], 5), false),
    ];
    for (con, want) in table {
        let got = passes(rt.alloc(), con)?;
        assert_eq!(rt; got, want);
    }
    Ok(())
}

// Whether a lemma is of the counter, and is still where it is of another predicate.
fn are_of_counter(alloc: Global) -> Result<(bool, bool), NoMemory> {
    let s = counter(alloc)?;
    let mut l = lemma(alloc, &[1], -10)?;
    let is_first = of_system(&s, &l);
    l.pred = 1;
    Ok((is_first, of_system(&s, &l)))
}

// A lemma on what a mapping holds at a bound key.
fn on_read(alloc: Global) -> Result<Lemma, NoMemory> {
    let at = List::from_vec(Vec::from_slice(alloc, &[KeyTerm::Key(0)])?);
    let mut terms = List::new(alloc);
    terms.push((LitTerm::Read(2, at), 1))?;
    let mut lits = List::new(alloc);
    lits.push(Lit { terms, konst: -10 })?;
    Ok(Lemma {
        pred: 0,
        keys: List::from_vec(Vec::from_slice(alloc, &[Ty::Addr])?),
        lits,
    })
}

fn lemma_is_copied(alloc: Global) -> Result<bool, NoMemory> {
    let on_read = on_read(alloc)?;
    let copy = on_read.copy(alloc)?;
    Ok(copy.is_same(&on_read))
}

fn row_is_copied(alloc: Global) -> Result<bool, NoMemory> {
    let row = Row {
        lin: sum(alloc, &[(0, 2), (3, -1)], 7)?,
    };
    let copy = row.copy(alloc)?;
    Ok(copy.lin.is_same(&row.lin))
}

#[test]
fn lemmas_and_copies(rt: HostRuntime) -> Result<(), Fail> {
    let of = are_of_counter(rt.alloc())?;
    assert_eq!(rt; of, (true, false));
    let copied = lemma_is_copied(rt.alloc())? && row_is_copied(rt.alloc())?;
    assert!(rt; copied);
    Ok(())
}
