// One run of the tableau on a formula's rows.

ghost use Rattle.std.specs.Prelude.{◌≡◌, true, IfOk, option_copied};
ghost use Rattle.chc_form.specs.Linear.{AllAscend, lins};
ghost use Rattle.chc_form.specs.WellMade.{well_made};
ghost use Rattle.chc_simplex.specs.TableauRun.{tableau_run};
ghost use Rattle.chc_reduce.specs.Reduced.{reduced};
ghost use Rattle.chc_reduce.specs.Rows.{rows_of};
ghost use Rattle.chc_ask.specs.Asked.{left_open, pointed, answered, asked_of};

use crate::open::{Asked, Open, Why};
use chc_form::{Formula, Lemma, Limits, Part, Row, System};
use chc_nums::{List, NoMemory};
use chc_reduce::{FormulaRows, formula_rows, reduce};
use chc_simplex::{Lp, solve};
use std::alloc::Global;

// The most rows of one run, and one more.
const ROWS: usize = 0x8000_0000;

fn left_open(branch: List<u32>, why: Why) -> Asked
    ensures { result ≡ left_open branch why }
{
    Asked::Open(Open { branch, why })
}

fn pointed(plain: bool, branch: List<u32>, point: List<i128>, denominator: i128) -> Asked
    ensures { result ≡ pointed plain branch point denominator }
{
    if plain {
        left_open(branch, Why::Point(point, denominator))
    } else {
        left_open(branch, Why::Nodes)
    }
}

pub fn answered(plain: bool, branch: List<u32>, lp: Lp) -> Asked
    ensures { result ≡ answered plain branch lp }
{
    match lp {
        Lp::Infeasible(multipliers) => Asked::Refuted(multipliers),
        Lp::Feasible(point, denominator) => pointed(plain, branch, point, denominator),
        Lp::Wide => left_open(branch, Why::Wide),
        Lp::Pivots => left_open(branch, Why::Pivots),
    }
}

// The run on some rows, of which there are fewer than 2^31.
pub fn run(alloc: Global, rows: &[Row], pivots: u32) -> Result<Lp, NoMemory>
    requires { AllAscend (lins rows.now) }
    ensures { IfOk result (λ a. a ≡ tableau_run (lins rows.now) pivots) }
{
    if rows.len() >= ROWS {
        return Err(NoMemory);
    }
    solve(alloc, rows, pivots)
}

#[tactic(auto, unfolding(crate::specs::Asked::asked_of))]
fn ask_formula(alloc: Global, f: &Formula, limits: Limits) -> Result<Asked, NoMemory>
    requires { AllAscend (rows_of f.now) }
    ensures { IfOk result (λ a. a ≡ asked_of limits f.now) }
{
    let FormulaRows {
        rows,
        branch,
        plain,
    } = formula_rows(alloc, f)?;
    let lp = run(alloc, rows.as_slice(), limits.pivots)?;
    Ok(answered(plain, branch, lp))
}

/// Whether a lemma is true at a rule's head under lemmas, or a query is refuted under them: multipliers that refute the
/// rows of the formula for it, or why that stays open. A goal beside a query is not looked at. `NoMemory` also stands
/// for 2^31 rows.
#[tactic(auto, using(chc_reduce::proofs::Ordered::orders))]
pub fn ask(
    alloc: Global,
    s: &System,
    part: Part,
    goal: Option<&Lemma>,
    lemmas: &[Lemma],
    limits: Limits,
) -> Result<Asked, NoMemory>
    requires { well_made s.now ≡ true }
    ensures { IfOk result (λ a. a ≡ asked_of limits (reduced s.now part (option_copied goal.entry) lemmas.now)) }
{
    let f = reduce(alloc, s, part, goal, lemmas)?;
    ask_formula(alloc, &f, limits)
}
