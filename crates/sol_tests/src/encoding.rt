// The program and the rules of a small contract, entry by entry.

use crate::texts::contract_of;
use chc_encode::encode;
use chc_form::{App, Con, Query, Rule, Sort, System};
use chc_nums::{List, NoMemory, Ty};
use sol_core::{Fun, Kind, Program, Site};
use sol_first::program;
use std::alloc::Global;
use std::test::Fail;

// What a `uint96` holds at most.
const MOST: i128 = 79_228_162_514_264_337_593_543_950_335;

const COUNTER: &str =
    "contract C { uint96 x; function f() public { require(x < 10); x = x + 1; assert(x <= 10); } }";

fn is_sort(sort: &Sort, size: u8) -> bool {
    match sort {
        Sort::Whole(Ty::Uint(bytes)) => *bytes == size,
        _ => false,
    }
}

fn are_sorts(sorts: &List<Sort>, sizes: &[u8]) -> bool {
    sorts.len() == sizes.len()
        && sorts
            .as_slice()
            .iter()
            .zip(sizes)
            .all(|(sort, size)| is_sort(sort, *size))
}

fn is_con(con: &Con, terms: &[(u32, i128)], konst: i128) -> bool {
    match con {
        Con::Le(l) => l.terms.as_slice() == terms && l.konst == konst,
        _ => false,
    }
}

fn are_cons(cons: &List<Con>, rows: &[(&[(u32, i128)], i128)]) -> bool {
    cons.len() == rows.len()
        && cons
            .as_slice()
            .iter()
            .zip(rows)
            .all(|(con, row)| is_con(con, row.0, row.1))
}

fn is_atom(atom: &App, args: &[u32]) -> bool {
    atom.pred == 0 && atom.args.as_slice() == args
}

// An atom alone at the values at entry.
fn is_body(body: &List<App>, args: &[u32]) -> bool {
    match body.as_slice() {
        [atom] => is_atom(atom, args),
        _ => false,
    }
}

fn is_rule(
    rule: Option<&Rule>,
    sizes: &[u8],
    body: &[u32],
    rows: &[(&[(u32, i128)], i128)],
    head: &[u32],
) -> bool {
    match rule {
        None => false,
        Some(rule) => {
            are_sorts(&rule.vars, sizes)
                && is_body(&rule.body, body)
                && are_cons(&rule.cons, rows)
                && is_atom(&rule.head, head)
        }
    }
}

fn is_first(
    rule: Option<&Rule>,
    sizes: &[u8],
    rows: &[(&[(u32, i128)], i128)],
    head: &[u32],
) -> bool {
    match rule {
        None => false,
        Some(rule) => {
            are_sorts(&rule.vars, sizes)
                && rule.body.is_empty()
                && are_cons(&rule.cons, rows)
                && is_atom(&rule.head, head)
        }
    }
}

fn is_query(
    query: Option<&Query>,
    sizes: &[u8],
    body: &[u32],
    rows: &[(&[(u32, i128)], i128)],
    target: u32,
) -> bool {
    match query {
        None => false,
        Some(query) => {
            are_sorts(&query.vars, sizes)
                && is_body(&query.body, body)
                && are_cons(&query.cons, rows)
                && query.target == target
        }
    }
}

fn is_pred(pred: Option<&List<Sort>>, sizes: &[u8]) -> bool {
    match pred {
        None => false,
        Some(sorts) => are_sorts(sorts, sizes),
    }
}

fn has_rules(s: &System) -> bool {
    let zero: [(&[(u32, i128)], i128); 2] = [(&[(0, 1)], 0), (&[(0, -1)], 0)];
    let whole: [(&[(u32, i128)], i128); 6] = [
        (&[(0, 1)], -9),
        (&[(0, 1), (1, -1)], 1),
        (&[(0, -1), (1, 1)], -1),
        (&[(1, -1)], 0),
        (&[(1, 1)], -MOST),
        (&[(1, 1)], -10),
    ];
    is_first(s.rules.get(0), &[12], &zero, &[0])
        && is_rule(s.rules.get(1), &[12, 12], &[0], &whole, &[1])
        && s.rules.len() == 2
}

fn has_queries(s: &System) -> bool {
    let overflow: [(&[(u32, i128)], i128); 2] = [(&[(0, 1)], -9), (&[(0, -1)], MOST)];
    let false_assertion: [(&[(u32, i128)], i128); 6] = [
        (&[(0, 1)], -9),
        (&[(0, 1), (1, -1)], 1),
        (&[(0, -1), (1, 1)], -1),
        (&[(1, -1)], 0),
        (&[(1, 1)], -MOST),
        (&[(1, -1)], 11),
    ];
    is_query(s.queries.get(0), &[12], &[0], &overflow, 0)
        && is_query(s.queries.get(1), &[12, 12], &[0], &false_assertion, 1)
        && s.queries.len() == 2
}

// Whether the counter has its rules and queries over one variable of 12 bytes.
fn counts_to_ten(alloc: Global) -> Result<bool, NoMemory> {
    let Some(contract) = contract_of(alloc, COUNTER)? else {
        return Ok(false);
    };
    let s = encode(alloc, &contract)?;
    Ok(s.preds.len() == 1 && is_pred(s.preds.get(0), &[12]) && has_rules(&s) && has_queries(&s))
}

fn is_function(fun: &Fun) -> bool {
    fun.name.as_str() == "f" && fun.params == 0 && fun.body.len() == 3
}

fn is_program(p: &Program) -> bool {
    let wanted = [
        Site {
            kind: Kind::Overflow,
            line: 1,
            col: 69,
        },
        Site {
            kind: Kind::Assert,
            line: 1,
            col: 74,
        },
    ];
    p.name.as_str() == "C"
        && p.scalars.as_slice() == [Ty::Uint(12)].as_slice()
        && p.doors.as_slice() == [0u32].as_slice()
        && p.funs.as_slice().iter().all(is_function)
        && p.funs.len() == 1
        && p.sites.as_slice() == wanted.as_slice()
}

// Whether the counter's program has its variable, its function and the targets at their places.
fn has_program(alloc: Global) -> Result<bool, NoMemory> {
    let Some(contract) = contract_of(alloc, COUNTER)? else {
        return Ok(false);
    };
    let program = program(alloc, &contract)?;
    Ok(is_program(&program))
}

#[test]
fn counter_has_a_program(rt: HostRuntime) -> Result<(), Fail> {
    let is_right = has_program(rt.alloc())?;
    assert!(rt; is_right);
    Ok(())
}

#[test]
fn counter_is_encoded(rt: HostRuntime) -> Result<(), Fail> {
    let is_right = counts_to_ten(rt.alloc())?;
    assert!(rt; is_right);
    Ok(())
}
