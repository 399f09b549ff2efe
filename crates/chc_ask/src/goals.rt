// One goal after another at a rule under lemmas.

ghost use Rattle.std.specs.Prelude.{◌≡◌, ◌++◌, IfOk};
ghost use Rattle.chc_form.specs.Linear.{AllAscend, lins};
ghost use Rattle.chc_simplex.specs.TableauRun.{tableau_run};
ghost use Rattle.chc_reduce.specs.Premises.{InOrder};
ghost use Rattle.chc_ask.specs.Goals.{AnswersGoal};

use crate::asking::{answered, run};
use crate::open::Asked;
use chc_form::{Lemma, Limits, Row};
use chc_nums::{List, NoMemory};
use chc_reduce::{Premises, goal_rows};
use chc_simplex::Lp;
use std::alloc::Global;

/// What is said of a goal, and the premises that it was asked on, for the next one.
#[derive(Drop)]
pub struct Answer {
    pub asked: Asked,
    pub premises: Premises,
}

// The run on rows between others, and these others.
#[derive(Drop)]
struct Between {
    lp: Lp,
    before: List<Row>,
    after: List<Row>,
}

#[tactic(auto, using(crate::proofs::Between::seams))]
fn run_between(
    alloc: Global,
    before: List<Row>,
    rows: List<Row>,
    after: List<Row>,
    pivots: u32,
) -> Result<Between, NoMemory>
    requires { AllAscend (lins ((before ++ rows) ++ after)) }
    ensures run { IfOk result (λ ran. ran.lp ≡ tableau_run (lins ((before ++ rows) ++ after)) pivots) }
    ensures before { IfOk result (λ ran. ran.before ≡ before) }
    ensures after { IfOk result (λ ran. ran.after ≡ after) }
{
    let mut all = before.into_vec();
    let mut rows = rows.into_vec();
    let mut after = after.into_vec();
    let place = all.len();
    all.append(&mut rows)?;
    let till = all.len();
    all.append(&mut after)?;
    let lp = run(alloc, all.as_slice(), pivots)?;
    let after = all.split_off(till)?;
    all.truncate(place);
    Ok(Between {
        lp,
        before: List::from_vec(all),
        after: List::from_vec(after),
    })
}

/// Whether a lemma is true at the head of a rule under lemmas whose premises these are: the same as `ask` says of it.
/// `NoMemory` also stands for 2^31 rows.
#[tactic(auto, using(crate::proofs::Between::goals))]
pub fn ask_goal(
    alloc: Global,
    premises: Premises,
    goal: &Lemma,
    limits: Limits,
) -> Result<Answer, NoMemory>
    requires { InOrder premises }
    ensures answer { IfOk result (λ a. AnswersGoal limits goal.now premises a.asked) }
    ensures same { IfOk result (λ a. a.premises ≡ premises) }
{
    let Premises {
        head,
        before,
        after,
        branch,
        plain,
    } = premises;
    let rows = goal_rows(alloc, &head, goal)?;
    let Between { lp, before, after } = run_between(alloc, before, rows, after, limits.pivots)?;
    let asked = answered(plain, branch.copy(alloc)?, lp);
    let premises = Premises {
        head,
        before,
        after,
        branch,
        plain,
    };
    Ok(Answer { asked, premises })
}
