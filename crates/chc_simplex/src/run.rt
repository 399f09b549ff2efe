// The run.

ghost use Rattle.std.specs.Prelude.{◌≡◌, ◌+◌, ◌<◌, ◌≤◌, ◌^◌, length, IfOk, ◌++◌, Some};
ghost use Rattle.chc_form.specs.Linear.{AllAscend, lins};
ghost use Rattle.chc_form.specs.RowSums.{width};
ghost use Rattle.chc_simplex.specs.Outcomes.{Gives};
ghost use Rattle.chc_simplex.specs.Answers.{Answers};
ghost use Rattle.chc_simplex.specs.Simplex.{IsKept};
ghost use Rattle.chc_simplex.specs.TableauRun.{bounds_of, nonbasic, slack_lines, first_tableau, run_from, whole_run, tableau_run};

use crate::data::{Line, Lp, Simplex, Step, Stop};
use crate::endings::{point, refutation};
use crate::simplex::{above_flags_of, next_step, pivot};
use chc_form::{Row, width};
use chc_nums::{List, NoMemory, opposite};
use std::alloc::Global;

// The bounds of the slacks.
#[tactic(auto, using(crate::proofs::Steps::joins))]
fn bounds_of(alloc: Global, rows: &[Row]) -> Result<List<i128>, Stop>
    ensures { Gives result (bounds_of (lins rows.now)) }
{
    let mut made = List::new(alloc);
    let mut rest = rows;
    while let [row, more @ ..] = rest {
        let Some(bound) = opposite(row.lin.konst) else {
            return Err(Stop::Wide);
        };
        made.push(bound)?;
        rest = more;
    }
    Ok(made)
}

#[tactic(auto, using(crate::proofs::Steps::repeats))]
fn nonbasic(alloc: Global, count: usize) -> Result<List<Option<Line>>, Stop>
    ensures { Gives result (Some (nonbasic count)) }
{
    let mut made = List::new(alloc);
    for _at in 0..count {
        made.push(None)?;
    }
    Ok(made)
}

// The terms of a row, with variables as places in the tableau.
fn row_terms(alloc: Global, terms: &[(u32, i128)]) -> Result<List<(usize, i128)>, Stop>
    ensures { Gives result (Some terms.now) }
{
    let mut made = List::new(alloc);
    let mut rest = terms;
    while let [(v, a), more @ ..] = rest {
        made.push((*v as usize, *a))?;
        rest = more;
    }
    Ok(made)
}

// Each slack with its row, after the other variables.
fn with_slacks(
    alloc: Global,
    first: List<Option<Line>>,
    rows: &[Row],
) -> Result<List<Option<Line>>, Stop>
    ensures { Gives result (Some (first ++ slack_lines (lins rows.now))) }
{
    let mut made = first;
    let mut rest = rows;
    while let [row, more @ ..] = rest {
        let terms = row_terms(alloc, row.lin.terms.as_slice())?;
        made.push(Some(Line {
            denominator: 1,
            terms,
        }))?;
        rest = more;
    }
    Ok(made)
}

fn first_tableau(alloc: Global, rows: &[Row]) -> Result<List<Option<Line>>, Stop>
    ensures { Gives result (Some (first_tableau (lins rows.now))) }
{
    let first = nonbasic(alloc, width(rows))?;
    with_slacks(alloc, first, rows)
}

// The run from a tableau on.
#[tactic(auto, using(crate::proofs::Turns::rounds))]
fn run_from(alloc: Global, rows: &[Row], pivots: u32, simplex: Simplex) -> Result<Lp, Stop>
    requires few { length rows.now < 2 ^ 31 }
    requires kept { IsKept simplex }
    requires variables { simplex.variables ≡ width (lins rows.now) }
    requires narrow { simplex.variables ≤ 2 ^ 32 }
    ensures { Gives result (run_from (lins rows.now) simplex.bounds pivots simplex.tableau) }
{
    let mut left = pivots;
    let mut simplex = simplex;
    'rounds: loop {
        let Some(step) = next_step(&simplex) else {
            return Err(Stop::Wide);
        };
        match step {
            Step::AllHold => {
                return point(
                    alloc,
                    simplex.variables,
                    simplex.bounds.as_slice(),
                    simplex.tableau.as_slice(),
                );
            }
            Step::Stuck(stuck) => {
                return refutation(
                    alloc,
                    simplex.variables,
                    rows,
                    simplex.tableau.as_slice(),
                    stuck,
                );
            }
            Step::Pivot(leaving, entering) => {
                if left == 0 {
                    return Ok(Lp::Pivots);
                }
                left -= 1;
                simplex = pivot(alloc, simplex, leaving, entering)?;
            }
        }
    }
}

#[tactic(auto, unfolding(crate::specs::TableauRun::whole_run), using(crate::proofs::Ascending::firsts))]
fn run(alloc: Global, rows: &[Row], pivots: u32) -> Result<Lp, Stop>
    requires few { length rows.now < 2 ^ 31 }
    requires order { AllAscend (lins rows.now) }
    ensures { Gives result (whole_run (lins rows.now) pivots) }
{
    let variables = width(rows);
    let bounds = bounds_of(alloc, rows)?;
    let tableau = first_tableau(alloc, rows)?;
    let above_flags = above_flags_of(alloc, variables, bounds.as_slice(), tableau.as_slice())?;
    let simplex = Simplex {
        variables,
        bounds,
        tableau,
        above_flags,
    };
    run_from(alloc, rows, pivots, simplex)
}

/// The answer of the simplex tableau by Bland's rule, with so many pivots at most.
///
/// The bounds of the slacks are the opposites of the constants. The least-numbered slack above its bound leaves, and
/// the least-numbered suitable variable of its line enters. All numbers are whole, and one that leaves 128 bits ends
/// the run as `Lp::Wide`. An error says that memory ran out.
#[tactic(auto, using(crate::proofs::Soundness::answers))]
pub fn solve(alloc: Global, rows: &[Row], pivots: u32) -> Result<Lp, NoMemory>
    requires few { length rows.now < 2 ^ 31 }
    requires order { AllAscend (lins rows.now) }
    ensures run { IfOk result (λ lp. lp ≡ tableau_run (lins rows.now) pivots) }
    ensures good { IfOk result (λ lp. Answers (lins rows.now) lp) }
{
    match run(alloc, rows, pivots) {
        Ok(answer) => Ok(answer),
        Err(Stop::Wide) => Ok(Lp::Wide),
        Err(Stop::NoMemory) => Err(NoMemory),
    }
}
