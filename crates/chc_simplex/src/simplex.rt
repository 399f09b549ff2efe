// The tableau of a run, what a round finds on it, and a pivot in place.

ghost use Rattle.std.specs.Prelude.{◌≡◌, ◌≢◌, pos, Some, slice_set};
ghost use Rattle.chc_simplex.specs.Outcomes.{Gives};
ghost use Rattle.chc_simplex.specs.Lines.{line_at, terms_of, rewritten, rewritten_at, exchanged, pivot};
ghost use Rattle.chc_simplex.specs.Terms.{Ascends, coefficient};
ghost use Rattle.chc_simplex.specs.Rounds.{next_step};
ghost use Rattle.chc_simplex.specs.Simplex.{above_flags_of, first_above, IsKept, GivesSimplex};

use crate::data::{Line, Simplex, Step, Stop};
use crate::lines::{denominator_at, terms_at, turned, with_entered};
use crate::rounds::{is_above, step_of};
use crate::terms::coefficient_in_order;
use chc_nums::List;
use std::alloc::Global;

// ---- which lines are above their bounds

/// Of each line whether its variable is above its bound.
pub fn above_flags_of(
    alloc: Global,
    variables: usize,
    bounds: &[i128],
    tableau: &[Option<Line>],
) -> Result<List<Option<bool>>, Stop>
    ensures { Gives result (Some (above_flags_of variables bounds.now 0 tableau.now)) }
{
    let mut made = List::new(alloc);
    let mut variable = 0;
    let mut rest = tableau;
    while let [line, more @ ..] = rest {
        made.push(is_above(variables, bounds, variable, line))?;
        variable += 1;
        rest = more;
    }
    Ok(made)
}

// The first line whose variable is above its bound.
fn first_above(above_flags: &[Option<bool>]) -> Option<Option<usize>>
    ensures { result ≡ first_above 0 above_flags.now }
{
    let mut variable = 0;
    let mut rest = above_flags;
    while let [above_flag, more @ ..] = rest {
        match above_flag {
            None => return None,
            Some(true) => return Some(Some(variable)),
            Some(false) => {}
        }
        variable += 1;
        rest = more;
    }
    Some(None)
}

/// What a round finds, or none where a number leaves 128 bits.
#[tactic(auto, unfolding(crate::specs::Rounds::next_step), using(crate::proofs::AboveFlags::above_flags))]
pub fn next_step(simplex: &Simplex) -> Option<Step>
    requires { IsKept simplex.now }
    ensures { result ≡ next_step simplex.now.variables simplex.now.bounds simplex.now.tableau }
{
    let leaving = first_above(simplex.above_flags.as_slice())?;
    Some(step_of(simplex.variables, simplex.tableau.as_slice(), leaving))
}

// ---- a pivot

// Puts an entry at a place; past the end nothing changes.
fn put<T: Drop>(list: &mut List<T>, at: usize, entry: T)
    ensures { list.new ≡ slice_set list.old at entry }
{
    if at < list.len() {
        list.set(at, entry);
    }
}

// Another line at a place, with its flag.
#[tactic(auto, using(crate::proofs::AboveFlags::above_flags, crate::proofs::Ascending::lines))]
fn with_line(simplex: Simplex, at: usize, line: Option<Line>) -> Simplex
    requires kept { IsKept simplex }
    requires order { Ascends 0 (terms_of line) }
    ensures { GivesSimplex simplex (Ok result) (Some (slice_set simplex.tableau at line)) }
{
    let Simplex {
        variables,
        bounds,
        tableau,
        above_flags,
    } = simplex;
    let above_flag = is_above(variables, bounds.as_slice(), at, &line);
    let mut tableau = tableau;
    let mut above_flags = above_flags;
    put(&mut tableau, at, line);
    put(&mut above_flags, at, above_flag);
    Simplex {
        variables,
        bounds,
        tableau,
        above_flags,
    }
}

// The entering variable put into the line at a place, in which its coefficient is given.
#[tactic(auto, unfolding(crate::specs::Lines::rewritten_at), using(crate::proofs::Rewriting::kept, crate::proofs::Ascending::lines))]
fn rewritten_at(
    alloc: Global,
    entering: usize,
    entered: &Line,
    a: i128,
    simplex: Simplex,
    at: usize,
) -> Result<Simplex, Stop>
    requires kept { IsKept simplex }
    requires order { Ascends 0 entered.now.terms }
    requires stands { a ≢ pos 0 }
    requires value { a ≡ coefficient (terms_of (line_at simplex.tableau at)) entering }
    ensures { GivesSimplex simplex result (rewritten_at entering entered.now simplex.tableau at) }
{
    let Some(Some(line)) = simplex.tableau.get(at) else {
        return Ok(simplex);
    };
    let made = with_entered(alloc, entering, entered, a, line)?;
    Ok(with_line(simplex, at, Some(made)))
}

// The coefficient of a variable in the line at a place, 0 where there is no line.
#[tactic(auto, using(crate::proofs::Rewriting::kept, crate::proofs::Ascending::lines))]
fn coefficient_at(simplex: &Simplex, at: usize, variable: usize) -> i128
    requires { IsKept simplex.now }
    ensures { result ≡ coefficient (terms_of (line_at simplex.now.tableau at)) variable }
{
    match simplex.tableau.get(at) {
        Some(Some(line)) => coefficient_in_order(line.terms.as_slice(), variable),
        Some(None) => 0,
        None => 0,
    }
}

// The entering variable put into each line. A line in which it doesn't stand is not touched, so a pivot costs what the
// changed lines cost.
#[tactic(auto, using(crate::proofs::Rewriting::turns))]
fn rewritten(
    alloc: Global,
    entering: usize,
    entered: &Line,
    simplex: Simplex,
) -> Result<Simplex, Stop>
    requires kept { IsKept simplex }
    requires order { Ascends 0 entered.now.terms }
    ensures { GivesSimplex simplex result (rewritten entering entered.now simplex.tableau) }
{
    let mut simplex = simplex;
    for at in 0..simplex.tableau.len() {
        let a = coefficient_at(&simplex, at, entering);
        if a == 0 {
            continue;
        }
        simplex = rewritten_at(alloc, entering, entered, a, simplex, at)?;
    }
    Ok(simplex)
}

fn exchanged(
    alloc: Global,
    simplex: Simplex,
    leaving: usize,
    entering: usize,
    entered: Line,
) -> Result<Simplex, Stop>
    requires kept { IsKept simplex }
    requires order { Ascends 0 entered.terms }
    ensures { GivesSimplex simplex result (exchanged simplex.tableau leaving entering entered) }
{
    let left = with_line(simplex, leaving, None);
    let made = rewritten(alloc, entering, &entered, left)?;
    Ok(with_line(made, entering, Some(entered)))
}

/// The tableau after a slack left the basis and a variable entered.
#[tactic(auto, unfolding(crate::specs::Lines::pivot), using(crate::proofs::Ascending::lines))]
pub fn pivot(
    alloc: Global,
    simplex: Simplex,
    leaving: usize,
    entering: usize,
) -> Result<Simplex, Stop>
    requires { IsKept simplex }
    ensures { GivesSimplex simplex result (pivot simplex.tableau leaving entering) }
{
    let denominator = denominator_at(simplex.tableau.as_slice(), leaving);
    let terms = terms_at(simplex.tableau.as_slice(), leaving);
    let entered = turned(alloc, denominator, terms, leaving, entering)?;
    exchanged(alloc, simplex, leaving, entering, entered)
}
