// A worked system: one predicate over a byte, 0 at first, one more while it is at most 9, asked whether it is 11.

use chc_form::{App, Con, Lemma, Lin, Lit, LitTerm, Query, Row, Rule, Sort, System};
use chc_nums::{List, NoMemory, Ty};
use std::alloc::Global;

/// The number of the rule that starts the counter.
pub const START: u32 = 0;

/// The number of the rule that counts.
pub const STEP: u32 = 1;

/// The terms of a sum and its constant.
pub type Terms<'a> = (&'a [(u32, i128)], i128);

/// The sum of these terms and a constant.
pub fn sum(alloc: Global, terms: &[(u32, i128)], konst: i128) -> Result<Lin, NoMemory> {
    Ok(Lin {
        terms: List::from_vec(Vec::from_slice(alloc, terms)?),
        konst,
    })
}

/// That these sums are at most 0.
pub fn at_most_zero(alloc: Global, sums: &[Terms]) -> Result<List<Con>, NoMemory> {
    let mut cons = List::new(alloc);
    for (terms, konst) in sums {
        cons.push(Con::Le(sum(alloc, *terms, *konst)?))?;
    }
    Ok(cons)
}

/// So many bytes.
pub fn bytes(alloc: Global, count: usize) -> Result<List<Sort>, NoMemory> {
    let mut sorts = List::new(alloc);
    for _ in 0..count {
        sorts.push(Sort::Whole(Ty::Uint(1)))?;
    }
    Ok(sorts)
}

/// The predicate at these variables.
pub fn atom(alloc: Global, args: &[u32]) -> Result<App, NoMemory> {
    Ok(App {
        pred: 0,
        args: List::from_vec(Vec::from_slice(alloc, args)?),
    })
}

fn body(alloc: Global) -> Result<List<App>, NoMemory> {
    let mut body = List::new(alloc);
    body.push(atom(alloc, &[0])?)?;
    Ok(body)
}

// p(x) from x <= 0, x >= 0
fn start(alloc: Global) -> Result<Rule, NoMemory> {
    let sums: [Terms; 2] = [(&[(0, 1)], 0), (&[(0, -1)], 0)];
    Ok(Rule {
        vars: bytes(alloc, 1)?,
        body: List::new(alloc),
        cons: at_most_zero(alloc, &sums)?,
        head: atom(alloc, &[0])?,
    })
}

// p(y) from p(x), x <= 9, y = x + 1
fn step(alloc: Global) -> Result<Rule, NoMemory> {
    let sums: [Terms; 3] = [
        (&[(0, 1)], -9),
        (&[(0, 1), (1, -1)], 1),
        (&[(0, -1), (1, 1)], -1),
    ];
    Ok(Rule {
        vars: bytes(alloc, 2)?,
        body: body(alloc)?,
        cons: at_most_zero(alloc, &sums)?,
        head: atom(alloc, &[1])?,
    })
}

// p(x), x >= 11
fn query(alloc: Global) -> Result<Query, NoMemory> {
    let sums: [Terms; 1] = [(&[(0, -1)], 11)];
    Ok(Query {
        vars: bytes(alloc, 1)?,
        body: body(alloc)?,
        cons: at_most_zero(alloc, &sums)?,
        target: 0,
    })
}

fn preds(alloc: Global) -> Result<List<List<Sort>>, NoMemory> {
    let mut preds = List::new(alloc);
    preds.push(bytes(alloc, 1)?)?;
    Ok(preds)
}

fn rules(alloc: Global) -> Result<List<Rule>, NoMemory> {
    let mut rules = List::new(alloc);
    rules.push(start(alloc)?)?;
    rules.push(step(alloc)?)?;
    Ok(rules)
}

fn queries(alloc: Global) -> Result<List<Query>, NoMemory> {
    let mut queries = List::new(alloc);
    queries.push(query(alloc)?)?;
    Ok(queries)
}

/// The counter.
pub fn counter(alloc: Global) -> Result<System, NoMemory> {
    Ok(System {
        preds: preds(alloc)?,
        rules: rules(alloc)?,
        queries: queries(alloc)?,
    })
}

fn literals(alloc: Global, factors: &[i128], konst: i128) -> Result<List<Lit>, NoMemory> {
    let mut terms = List::new(alloc);
    for factor in factors {
        terms.push((LitTerm::Arg(0), *factor))?;
    }
    let mut lits = List::new(alloc);
    lits.push(Lit { terms, konst })?;
    Ok(lits)
}

/// The lemma that the sum of the argument, once for each factor, and a constant is at most 0.
pub fn lemma(alloc: Global, factors: &[i128], konst: i128) -> Result<Lemma, NoMemory> {
    Ok(Lemma {
        pred: 0,
        keys: List::new(alloc),
        lits: literals(alloc, factors, konst)?,
    })
}

/// The lemmas that the argument is at most each number.
pub fn at_most(alloc: Global, numbers: &[i128]) -> Result<Vec<Lemma>, NoMemory> {
    let mut all = Vec::new(alloc);
    for number in numbers {
        all.push(lemma(alloc, &[1], number.checked_neg().unwrap_or(0))?)?;
    }
    Ok(all)
}

/// Whether a lemma says that the argument is at most a number.
pub fn is_at_most(l: &Lemma, most: i128) -> bool {
    match l.lits.as_slice() {
        [lit] => match lit.terms.as_slice() {
            [(LitTerm::Arg(0), 1)] => lit.konst.checked_neg() == Some(most),
            _ => false,
        },
        _ => false,
    }
}

/// Whether lemmas say that the argument is at most these numbers.
pub fn are_at_most(lemmas: &[Lemma], numbers: &[i128]) -> bool {
    lemmas.len() == numbers.len()
        && lemmas
            .iter()
            .zip(numbers)
            .all(|(lemma, number)| is_at_most(lemma, *number))
}

/// Whether these rows have these terms and constants.
pub fn are_rows(rows: &[Row], wanted: &[Terms]) -> bool {
    rows.len() == wanted.len()
        && rows.iter().zip(wanted).all(|(row, want)| row.lin.terms.as_slice() == want.0
            && row.lin.konst == want.1)
}
