// How a run ends: a point over one denominator, or multipliers and their sums.

ghost use Rattle.std.specs.Prelude.{◌≡◌, ◌+◌, ◌<◌, ◌≤◌, ◌^◌, length, pos};
ghost use Rattle.chc_simplex.specs.Outcomes.{Gives};
ghost use Rattle.chc_form.specs.Linear.{lins};
ghost use Rattle.chc_simplex.specs.Endings.{fraction, fractions, multiples, numerator, numerators, point_of, point, multiplier, multipliers, summed, refutation};

use crate::data::{Line, Lp, Stop};
use crate::lines::{denominator_at, terms_at};
use crate::numbers::{lowest, multiple, quotient};
use crate::rounds::value_of;
use crate::terms::coefficient;
use chc_form::{Row, constant_sum, variable_sums, zeros};
use chc_nums::{List, opposite, product};
use std::alloc::Global;

// The value of a variable: 0 where it is nonbasic.
fn fraction(variables: usize, bounds: &[i128], line: &Option<Line>) -> Option<(i128, i128)>
    ensures { result ≡ fraction variables bounds.now line.now }
{
    match line {
        None => Some((0, 1)),
        Some(line) => {
            let value = value_of(variables, bounds, line.terms.as_slice())?;
            lowest(value, line.denominator)
        }
    }
}

// The values of the first variables.
#[tactic(auto, using(crate::proofs::Steps::joins))]
fn fractions(
    alloc: Global,
    variables: usize,
    bounds: &[i128],
    tableau: &[Option<Line>],
) -> Result<List<(i128, i128)>, Stop>
    ensures { Gives result (fractions variables bounds.now 0 tableau.now) }
{
    let mut made = List::new(alloc);
    let mut variable = 0;
    let mut rest = tableau;
    while let [line, more @ ..] = rest {
        if variable >= variables {
            return Ok(made);
        }
        let Some(value) = fraction(variables, bounds, line) else {
            return Err(Stop::Wide);
        };
        made.push(value)?;
        variable += 1;
        rest = more;
    }
    Ok(made)
}

// The least common multiple of all denominators.
fn multiples(fractions: &[(i128, i128)]) -> Option<i128>
    ensures { result ≡ multiples (pos 1) fractions.now }
{
    let mut so_far = 1;
    let mut rest = fractions;
    while let [(_, below), more @ ..] = rest {
        so_far = multiple(so_far, *below)?;
        rest = more;
    }
    Some(so_far)
}

// A numerator over another denominator.
fn numerator(denominator: i128, above: i128, below: i128) -> Option<i128>
    ensures { result ≡ numerator denominator (above, below) }
{
    let times = quotient(denominator, below)?;
    product(above, times)
}

#[tactic(auto, using(crate::proofs::Steps::joins))]
fn numerators(
    alloc: Global,
    denominator: i128,
    fractions: &[(i128, i128)],
) -> Result<List<i128>, Stop>
    ensures { Gives result (numerators denominator fractions.now) }
{
    let mut made = List::new(alloc);
    let mut rest = fractions;
    while let [(above, below), more @ ..] = rest {
        let Some(x) = numerator(denominator, *above, *below) else {
            return Err(Stop::Wide);
        };
        made.push(x)?;
        rest = more;
    }
    Ok(made)
}

fn point_of(alloc: Global, fractions: &[(i128, i128)]) -> Result<Lp, Stop>
    ensures { Gives result (point_of fractions.now) }
{
    let Some(denominator) = multiples(fractions) else {
        return Err(Stop::Wide);
    };
    let xs = numerators(alloc, denominator, fractions)?;
    Ok(Lp::Feasible(xs, denominator))
}

/// The point at which the nonbasic variables rest.
#[tactic(auto, unfolding(crate::specs::Endings::point))]
pub fn point(
    alloc: Global,
    variables: usize,
    bounds: &[i128],
    tableau: &[Option<Line>],
) -> Result<Lp, Stop>
    ensures { Gives result (point variables bounds.now tableau.now) }
{
    let values = fractions(alloc, variables, bounds, tableau)?;
    point_of(alloc, values.as_slice())
}

fn multiplier(
    stuck: usize,
    denominator: i128,
    terms: &[(usize, i128)],
    slack: usize,
) -> Option<i128>
    ensures { result ≡ multiplier stuck denominator terms.now slack }
{
    if slack == stuck {
        Some(denominator)
    } else {
        opposite(coefficient(terms, slack))
    }
}

// One multiplier for each row.
#[tactic(auto, using(crate::proofs::Steps::joins))]
fn multipliers(
    alloc: Global,
    stuck: usize,
    denominator: i128,
    terms: &[(usize, i128)],
    variables: usize,
    rows: &[Row],
) -> Result<List<i128>, Stop>
    requires { variables + length rows.now < 2 ^ 64 }
    ensures { Gives result (multipliers stuck denominator terms.now variables (lins rows.now)) }
{
    let mut made = List::new(alloc);
    let mut slack = variables;
    let mut rest = rows;
    while let [_, more @ ..] = rest {
        let Some(m) = multiplier(stuck, denominator, terms, slack) else {
            return Err(Stop::Wide);
        };
        made.push(m)?;
        slack += 1;
        rest = more;
    }
    Ok(made)
}

// Multipliers, once their sums are taken.
fn summed(
    alloc: Global,
    variables: usize,
    rows: &[Row],
    multipliers: List<i128>,
) -> Result<Lp, Stop>
    ensures { Gives result (summed variables (lins rows.now) multipliers) }
{
    let none = zeros(alloc, variables)?;
    let Some(_sums) = variable_sums(multipliers.as_slice(), rows, none) else {
        return Err(Stop::Wide);
    };
    match constant_sum(multipliers.as_slice(), rows) {
        Some(_) => Ok(Lp::Infeasible(multipliers)),
        None => Err(Stop::Wide),
    }
}

/// The multipliers that refute the rows, where nothing may enter for a slack.
#[tactic(auto, unfolding(crate::specs::Endings::refutation))]
pub fn refutation(
    alloc: Global,
    variables: usize,
    rows: &[Row],
    tableau: &[Option<Line>],
    stuck: usize,
) -> Result<Lp, Stop>
    requires { variables + length rows.now < 2 ^ 64 }
    ensures { Gives result (refutation variables (lins rows.now) tableau.now stuck) }
{
    let made = multipliers(
        alloc,
        stuck,
        denominator_at(tableau, stuck),
        terms_at(tableau, stuck),
        variables,
        rows,
    )?;
    summed(alloc, variables, rows, made)
}
