// The slack that leaves and the variable that enters.

ghost use Rattle.std.specs.Prelude.{◌≡◌, ◌+◌, ◌<◌, ◌^◌, length, pos};
ghost use Rattle.chc_simplex.specs.Terms.{sums_from};
ghost use Rattle.chc_simplex.specs.Rounds.{rest_at, line_above, is_above, is_suitable, entering, leaves_for, step_of};

use crate::data::{Line, Step};
use crate::lines::terms_at;
use chc_form::number_at;
use chc_nums::{add_product, product};

/// The value at which a nonbasic variable rests: 0 for each of the first ones, and a slack's bound for the others.
pub fn rest_at(variables: usize, bounds: &[i128], variable: usize) -> i128
    ensures { result ≡ rest_at variables bounds.now variable }
{
    if variable < variables {
        0
    } else {
        number_at(bounds, variable - variables)
    }
}

/// The sum of a line's terms where the nonbasic variables rest, or none where a number leaves 128 bits.
pub fn value_of(variables: usize, bounds: &[i128], terms: &[(usize, i128)]) -> Option<i128>
    ensures { result ≡ sums_from (pos 0) terms.now (rest_at variables bounds.now) }
{
    let mut so_far = 0;
    let mut rest = terms;
    while let [(v, a), more @ ..] = rest {
        so_far = add_product(so_far, *a, rest_at(variables, bounds, *v))?;
        rest = more;
    }
    Some(so_far)
}

fn line_above(variables: usize, bounds: &[i128], bound: i128, line: &Line) -> Option<bool>
    ensures { result ≡ line_above variables bounds.now bound line.now }
{
    let value = value_of(variables, bounds, line.terms.as_slice())?;
    let most = product(line.denominator, bound)?;
    Some(most < value)
}

/// Whether a variable is a basic slack above its bound, or none where a number leaves 128 bits.
pub fn is_above(
    variables: usize,
    bounds: &[i128],
    variable: usize,
    line: &Option<Line>,
) -> Option<bool>
    ensures { result ≡ is_above variables bounds.now variable line.now }
{
    match line {
        None => Some(false),
        Some(line) => {
            if variable < variables {
                return Some(false);
            }
            line_above(
                variables,
                bounds,
                rest_at(variables, bounds, variable),
                line,
            )
        }
    }
}

fn is_suitable(variables: usize, variable: usize, a: i128) -> bool
    ensures { result ≡ is_suitable variables (variable, a) }
{
    (variable < variables && a != 0) || a > 0
}

// The first suitable variable of a line.
fn entering(variables: usize, terms: &[(usize, i128)]) -> Option<usize>
    ensures { result ≡ entering variables terms.now }
{
    let mut rest = terms;
    while let [(v, a), more @ ..] = rest {
        if is_suitable(variables, *v, *a) {
            return Some(*v);
        }
        rest = more;
    }
    None
}

fn leaves_for(leaving: usize, entering: Option<usize>) -> Step
    ensures { result ≡ leaves_for leaving entering }
{
    match entering {
        None => Step::Stuck(leaving),
        Some(entering) => Step::Pivot(leaving, entering),
    }
}

/// What follows for the slack that leaves.
pub fn step_of(variables: usize, tableau: &[Option<Line>], leaving: Option<usize>) -> Step
    ensures { result ≡ step_of variables tableau.now leaving }
{
    match leaving {
        None => Step::AllHold,
        Some(leaving) => leaves_for(leaving, entering(variables, terms_at(tableau, leaving))),
    }
}
