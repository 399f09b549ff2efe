// A rule under lemmas, for many goals.

ghost use Rattle.std.specs.Prelude.{◌≡◌, ◌<◌, ◌^◌, ◌++◌, true, length, map, IfOk};
ghost use Rattle.std.specs.List.{list_all};
ghost use Rattle.chc_form.specs.declared.formula.Formula.{And};
ghost use Rattle.chc_form.specs.Linear.{lins};
ghost use Rattle.chc_form.specs.WellMade.{is_sort, well_made};
ghost use Rattle.chc_reduce.specs.Reduced.{ranges, refuted, constraint, instances};
ghost use Rattle.chc_reduce.specs.Rows.{rows_of};
ghost use Rattle.chc_reduce.specs.Premises.{goal_part, AreMadeOf, ArePremises, InOrder};

use crate::reduction::{add_goal, add_ranges, premises};
use crate::shape::{FormulaRows, formula_rows};
use chc_form::{App, Formula, Lemma, Row, Rule, System};
use chc_nums::{List, NoMemory};
use sqlite_items::Items;
use std::alloc::Global;

/// A rule under lemmas, but for the lemma that is to be shown at its head: the rows before those of that goal, the rows
/// after them, the branch, and whether there is no choice. Made once, it serves one goal after another.
#[derive(Drop)]
pub struct Premises {
    pub head: App,
    pub before: List<Row>,
    pub after: List<Row>,
    pub branch: List<u32>,
    pub plain: bool,
}

impl Premises {
    /// Those of a rule of a system, by its number.
    #[tactic(auto, using(crate::proofs::Goals::premises))]
    pub fn new(alloc: Global, s: &System, rule: u32, lemmas: &[Lemma]) -> Result<Premises, NoMemory>
        requires made { well_made s.now ≡ true }
        requires there { rule < length s.now.rules }
        ensures are { IfOk result (λ g. ArePremises s.now rule lemmas.now g) }
        ensures order { IfOk result (λ g. InOrder g) }
    {
        let rule = &s.rules.as_slice()[rule as usize];
        premises_of(alloc, rule, lemmas)
    }
}

fn premises_of(alloc: Global, rule: &Rule, lemmas: &[Lemma]) -> Result<Premises, NoMemory>
    requires sorts { list_all is_sort rule.now.vars ≡ true }
    requires few { length rule.now.vars < 2 ^ 31 }
    ensures { IfOk result (λ g. AreMadeOf rule.now lemmas.now g) }
{
    let before = range_rows(alloc, rule)?;
    let formula = premises(
        alloc,
        Items::new(alloc),
        rule.cons.as_slice(),
        rule.body.as_slice(),
        lemmas,
    )?;
    let FormulaRows {
        rows,
        branch,
        plain,
    } = formula_rows(alloc, &formula)?;
    let args = rule.head.args.copy(alloc)?;
    Ok(Premises {
        head: App {
            pred: rule.head.pred,
            args,
        },
        before,
        after: rows,
        branch,
        plain,
    })
}

fn range_rows(alloc: Global, rule: &Rule) -> Result<List<Row>, NoMemory>
    requires sorts { list_all is_sort rule.now.vars ≡ true }
    requires few { length rule.now.vars < 2 ^ 31 }
    ensures { IfOk result (λ made. lins made ≡ rows_of (And (ranges 0 rule.now.vars))) }
{
    let mut parts = Items::new(alloc);
    add_ranges(alloc, rule.vars.as_slice(), &mut parts)?;
    Ok(formula_rows(alloc, &Formula::And(parts))?.rows)
}

/// The rows of a goal at a head.
pub fn goal_rows(alloc: Global, head: &App, goal: &Lemma) -> Result<List<Row>, NoMemory>
    ensures { IfOk result (λ made. lins made ≡ rows_of (goal_part head.now goal.now)) }
{
    let mut parts = Items::new(alloc);
    add_goal(alloc, head, goal.lits.as_slice(), &mut parts)?;
    Ok(formula_rows(alloc, &Formula::And(parts))?.rows)
}
