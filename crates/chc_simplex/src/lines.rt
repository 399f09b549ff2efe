// Lines of the tableau.

ghost use Rattle.std.specs.Prelude.{◌≡◌, unsigned_abs};
ghost use Rattle.chc_simplex.specs.Outcomes.{Gives};
ghost use Rattle.chc_simplex.specs.Terms.{Ascends, AllFit, others};
ghost use Rattle.chc_simplex.specs.Lines.{line_at, terms_of, denominator_of, common, divided_terms, divided_line, reduced, turned_up, turned_down, turned, with_entered};

use crate::data::{Line, Stop};
use crate::numbers::{gcd, quotient, signed};
use crate::terms::{Factors, coefficient, merged};
use chc_nums::{List, opposite, product};
use std::alloc::Global;

/// The terms of a variable's line, none where it is nonbasic.
pub fn terms_at(tableau: &[Option<Line>], variable: usize) -> &[(usize, i128)]
    ensures { result.now ≡ terms_of (line_at tableau.now variable) }
{
    match tableau.get(variable) {
        Some(Some(line)) => line.terms.as_slice(),
        Some(None) => &[],
        None => &[],
    }
}

/// The denominator of a variable's line, 1 where it is nonbasic.
pub fn denominator_at(tableau: &[Option<Line>], variable: usize) -> i128
    ensures { result ≡ denominator_of (line_at tableau.now variable) }
{
    match tableau.get(variable) {
        Some(Some(line)) => line.denominator,
        Some(None) => 1,
        None => 1,
    }
}

// The greatest common divisor of a number and all coefficients.
#[tactic(auto, using(crate::proofs::Steps::ones))]
fn common(first: u128, terms: &[(usize, i128)]) -> u128
    ensures { result ≡ common first terms.now }
{
    let mut divisor = first;
    let mut rest = terms;
    while let [(_, a), more @ ..] = rest {
        if divisor == 1 {
            return 1;
        }
        divisor = gcd(divisor, a.unsigned_abs());
        rest = more;
    }
    divisor
}

// Each coefficient divided.
#[tactic(auto, using(crate::proofs::Steps::joins))]
fn divided_terms(
    alloc: Global,
    divisor: i128,
    terms: &[(usize, i128)],
) -> Result<List<(usize, i128)>, Stop>
    ensures { Gives result (divided_terms divisor terms.now) }
{
    let mut made = List::new(alloc);
    let mut rest = terms;
    while let [(v, a), more @ ..] = rest {
        let Some(b) = quotient(*a, divisor) else {
            return Err(Stop::Wide);
        };
        made.push((*v, b))?;
        rest = more;
    }
    Ok(made)
}

// A line divided.
fn divided_line(
    alloc: Global,
    denominator: i128,
    terms: &[(usize, i128)],
    divisor: i128,
) -> Result<Line, Stop>
    ensures { Gives result (divided_line denominator terms.now divisor) }
{
    let Some(denominator) = quotient(denominator, divisor) else {
        return Err(Stop::Wide);
    };
    let terms = divided_terms(alloc, divisor, terms)?;
    Ok(Line { denominator, terms })
}

// A line in lowest terms. Most are there already, and keep their terms.
#[tactic(auto, using(crate::proofs::Lowest::lowest))]
fn reduced(alloc: Global, denominator: i128, terms: List<(usize, i128)>) -> Result<Line, Stop>
    requires { AllFit terms }
    ensures { Gives result (reduced denominator terms) }
{
    let divisor = common(denominator.unsigned_abs(), terms.as_slice());
    if divisor == 1 {
        return Ok(Line { denominator, terms });
    }
    match signed(divisor) {
        Some(divisor) => divided_line(alloc, denominator, terms.as_slice(), divisor),
        None => Err(Stop::Wide),
    }
}

fn turned_up(
    alloc: Global,
    denominator: i128,
    leaving: usize,
    a: i128,
    entering: usize,
    terms: &[(usize, i128)],
) -> Result<Line, Stop>
    ensures { Gives result (turned_up denominator leaving a (others entering terms.now)) }
{
    let terms = merged(
        alloc,
        &Factors {
            left: -1,
            right: denominator,
        },
        entering,
        terms,
        &[(leaving, 1)],
    )?;
    Ok(Line {
        denominator: a,
        terms,
    })
}

fn turned_down(
    alloc: Global,
    denominator: i128,
    leaving: usize,
    a: i128,
    entering: usize,
    terms: &[(usize, i128)],
) -> Result<Line, Stop>
    ensures { Gives result (turned_down denominator leaving a (others entering terms.now)) }
{
    let Some(above) = opposite(a) else {
        return Err(Stop::Wide);
    };
    let Some(c) = opposite(denominator) else {
        return Err(Stop::Wide);
    };
    let terms = merged(
        alloc,
        &Factors { left: 1, right: c },
        entering,
        terms,
        &[(leaving, 1)],
    )?;
    Ok(Line {
        denominator: above,
        terms,
    })
}

/// The leaving line for one of its variables.
pub fn turned(
    alloc: Global,
    denominator: i128,
    terms: &[(usize, i128)],
    leaving: usize,
    entering: usize,
) -> Result<Line, Stop>
    ensures { Gives result (turned denominator terms.now leaving entering) }
{
    let a = coefficient(terms, entering);
    if a > 0 {
        turned_up(alloc, denominator, leaving, a, entering, terms)
    } else {
        turned_down(alloc, denominator, leaving, a, entering, terms)
    }
}

/// A line with the entering variable, whose coefficient is given, put in.
#[tactic(auto, using(crate::proofs::Ascending::lines))]
pub fn with_entered(
    alloc: Global,
    entering: usize,
    entered: &Line,
    a: i128,
    line: &Line,
) -> Result<Line, Stop>
    requires entered { Ascends 0 entered.now.terms }
    requires line { Ascends 0 line.now.terms }
    ensures { Gives result (with_entered entering entered.now a line.now) }
{
    let Some(denominator) = product(entered.denominator, line.denominator) else {
        return Err(Stop::Wide);
    };
    let terms = merged(
        alloc,
        &Factors {
            left: entered.denominator,
            right: a,
        },
        entering,
        line.terms.as_slice(),
        entered.terms.as_slice(),
    )?;
    reduced(alloc, denominator, terms)
}
