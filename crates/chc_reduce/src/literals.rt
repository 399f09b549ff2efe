// Literals at the arguments of atoms.

ghost use Rattle.std.specs.Prelude.{◌≡◌, ◌++◌, [], ◌-◌, ◌^◌, ◌-ℤ◌, pos, IfOk, IfSome};
ghost use Rattle.chc_reduce.specs.Literals.{AreWithin, put_term, raised, variable_of, terms_onto, narrowed_terms, narrowed, literal_sum, opposite_terms, opposite_sum};

use chc_form::{App, Lin, Lit, LitTerm};
use chc_nums::{List, NoMemory, Total};
use std::alloc::Global;

// Terms, then one that vanishes where its coefficient is 0, and then others.
fn finish(
    made: List<(u32, Total)>,
    x: u32,
    a: Total,
    rest: &[(u32, Total)],
) -> Result<List<(u32, Total)>, NoMemory>
    ensures { IfOk result (λ ts. ts ≡ made ++ put_term x a rest.now) }
{
    let mut made = made;
    if !a.is_zero() {
        made.push((x, a))?;
    }
    for term in rest {
        made.push((term.0, term.1.copy()))?;
    }
    Ok(made)
}

// A variable's coefficient raised, where terms stand by ascending variables.
#[tactic(auto, using(crate::proofs::Terms::turns, crate::proofs::Bounds::places))]
fn raise(
    alloc: Global,
    x: u32,
    a: &i128,
    terms: &[(u32, Total)],
) -> Result<List<(u32, Total)>, NoMemory>
    requires { AreWithin (2 ^ 64 - 2) terms.now }
    ensures { IfOk result (λ ts. ts ≡ raised x a.now terms.now) }
{
    let mut made = List::new(alloc);
    let mut rest = terms;
    while let [term, more @ ..] = rest {
        if x < term.0 {
            return finish(made, x, Total::new(*a), rest);
        }
        if x == term.0 {
            return finish(made, x, term.1.plus(*a), more);
        }
        made.push((term.0, term.1.copy()))?;
        rest = more;
    }
    finish(made, x, Total::new(*a), rest)
}

// The variable that is the argument of a term.
fn variable_of(atom: &App, term: &LitTerm) -> Option<u32>
    ensures { result ≡ variable_of atom.now term.now }
{
    match term {
        LitTerm::Arg(i) => atom.args.get(*i as usize).copied(),
        LitTerm::Key(_) | LitTerm::Read(_, _) => None,
    }
}

// The terms of a literal at an atom's arguments, of which there are fewer than 2^64.
#[tactic(auto, using(crate::proofs::Bounds::sums))]
fn terms_at(
    alloc: Global,
    atom: &App,
    terms: &[(LitTerm, i128)],
) -> Result<Option<List<(u32, Total)>>, NoMemory>
    ensures value { IfOk result (λ o. o ≡ terms_onto atom.now [] terms.now) }
    ensures small { IfOk result (λ o. IfSome o (λ ts. AreWithin (2 ^ 64 - 1) ts)) }
{
    let mut made = List::new(alloc);
    let mut rest = terms;
    while let [term, more @ ..] = rest {
        let Some(x) = variable_of(atom, &term.0) else {
            return Ok(None);
        };
        let a = term.1;
        made = raise(alloc, x, &a, made.as_slice())?;
        rest = more;
    }
    Ok(Some(made))
}

// Terms whose coefficients have 128 bits, or none where one leaves them.
#[tactic(auto, using(crate::proofs::Terms::narrows))]
fn narrowed_terms(
    alloc: Global,
    terms: &[(u32, Total)],
) -> Result<Option<List<(u32, i128)>>, NoMemory>
    ensures { IfOk result (λ o. o ≡ narrowed_terms terms.now) }
{
    let mut made = List::new(alloc);
    let mut rest = terms;
    while let [term, more @ ..] = rest {
        let Some(a) = term.1.narrow() else {
            return Ok(None);
        };
        made.push((term.0, a))?;
        rest = more;
    }
    Ok(Some(made))
}

fn narrowed(alloc: Global, terms: &[(u32, Total)], konst: &Total) -> Result<Option<Lin>, NoMemory>
    ensures { IfOk result (λ o. o ≡ narrowed terms.now konst.now) }
{
    let Some(terms) = narrowed_terms(alloc, terms)? else {
        return Ok(None);
    };
    match konst.narrow() {
        None => Ok(None),
        Some(konst) => Ok(Some(Lin { terms, konst })),
    }
}

/// The sum of a literal at an atom's arguments; none where it speaks of a bound key or of a mapping, or a number of it
/// leaves 128 bits.
#[tactic(auto, unfolding(crate::specs::Literals::literal_sum))]
pub fn literal_sum(alloc: Global, atom: &App, literal: &Lit) -> Result<Option<Lin>, NoMemory>
    ensures { IfOk result (λ o. o ≡ literal_sum atom.now literal.now) }
{
    match terms_at(alloc, atom, literal.terms.as_slice())? {
        None => Ok(None),
        Some(terms) => narrowed(alloc, terms.as_slice(), &Total::new(literal.konst)),
    }
}

// Terms with the other sign.
#[tactic(auto, using(crate::proofs::Terms::narrows, crate::proofs::Bounds::places))]
fn opposite_terms(alloc: Global, terms: &[(u32, Total)]) -> Result<List<(u32, Total)>, NoMemory>
    requires { AreWithin (2 ^ 64 - 1) terms.now }
    ensures { IfOk result (λ ts. ts ≡ opposite_terms terms.now) }
{
    let mut made = List::new(alloc);
    let mut rest = terms;
    while let [term, more @ ..] = rest {
        made.push((term.0, term.1.opposite()))?;
        rest = more;
    }
    Ok(made)
}

// 1 less a number.
fn one_less(n: i128) -> Total
    ensures { result ≡ pos 1 -ℤ n }
{
    Total::new(1).minus(n)
}

/// The sum that says the opposite over whole numbers, 1 - s in place of s; none where the literal speaks of a bound key
/// or of a mapping, or a number of the sum leaves 128 bits.
#[tactic(auto, unfolding(crate::specs::Literals::opposite_sum))]
pub fn opposite_sum(alloc: Global, atom: &App, literal: &Lit) -> Result<Option<Lin>, NoMemory>
    ensures { IfOk result (λ o. o ≡ opposite_sum atom.now literal.now) }
{
    match terms_at(alloc, atom, literal.terms.as_slice())? {
        None => Ok(None),
        Some(terms) => {
            let others = opposite_terms(alloc, terms.as_slice())?;
            narrowed(alloc, others.as_slice(), &one_less(literal.konst))
        }
    }
}
