// The rules and queries of a contract.

ghost use Rattle.std.specs.Prelude.{◌≡◌, ◌++◌, ◌∷◌, [], length, map, IfOk, OnOk, pos, ◌+◌, true};
ghost use Rattle.std.specs.List.{All};
ghost use Rattle.chc_nums.specs.Types.{IsSize};
ghost use Rattle.chc_form.specs.WellMade.{well_made};
ghost use Rattle.sol_first.specs.Typed.{StepTyped, IsTyped};
ghost use Rattle.chc_encode.specs.PathRows.{plus, minus, sorts_of, entry, after_all, target};
ghost use Rattle.chc_encode.specs.Systems.{at_entry, cons_of, zeros_from, zero_rule, rule_at, rule_of, query_at, own_query, queries_of_steps, queries_of, system_of};

use crate::few::are_few;
use crate::path::{Path, advance, entry, entry_current, entry_sorts, target};
use crate::rows::{minus, plus};
use chc_form::{App, Con, Query, Row, Rule, Sort, System};
use chc_nums::{List, NoMemory};
use sol_first::{Contract, Function, Step, Variable};
use std::alloc::Global;

/// The Horn rules of a contract: one predicate, over its state variables; a rule for the state after deployment, and one
/// per function; and a query per target. `NoMemory` also stands for a list of 2^31 entries, and for nothing else.
pub fn encode(alloc: Global, contract: &Contract) -> Result<System, NoMemory>
    requires { IsTyped contract.now }
    ensures equals { IfOk result (λ s. s ≡ system_of contract.now) }
    ensures well { IfOk result (λ s. well_made s ≡ true) }
{
    passed(contract, system_of(alloc, contract)?)
}

// The rules of a contract are well made, unless a list is too long.
#[tactic(auto, using(crate::proofs::Making::making))]
fn passed(contract: &Contract, system: System) -> Result<System, NoMemory>
    requires typed { IsTyped contract.now }
    requires made { system ≡ system_of contract.now }
    ensures same { IfOk result (λ s. s ≡ system) }
    ensures well { IfOk result (λ s. well_made s ≡ true) }
{
    if are_few(&system) {
        Ok(system)
    } else {
        Err(NoMemory)
    }
}

fn system_of(alloc: Global, contract: &Contract) -> Result<System, NoMemory>
    requires { IsTyped contract.now }
    ensures { IfOk result (λ s. s ≡ system_of contract.now) }
{
    let variables = contract.variables.as_slice();
    let mut rules = List::new(alloc);
    rules.push(zero_rule(alloc, variables)?)?;
    let mut queries = List::new(alloc);
    add_functions(
        alloc,
        variables,
        contract.functions.as_slice(),
        &mut rules,
        &mut queries,
    )?;
    let preds = one(alloc, entry_sorts(alloc, variables)?)?;
    Ok(System {
        preds,
        rules,
        queries,
    })
}

// A list of one entry.
fn one<T: Drop>(alloc: Global, entry: T) -> Result<List<T>, NoMemory>
    ensures { IfOk result (λ list. list ≡ entry ∷ []) }
{
    let mut list = List::new(alloc);
    list.push(entry)?;
    Ok(list)
}

// The predicate at the values at entry.
fn at_entry(alloc: Global, variables: &[Variable]) -> Result<App, NoMemory>
    ensures { IfOk result (λ a. a ≡ at_entry variables.now) }
{
    Ok(App {
        pred: 0,
        args: entry_current(alloc, variables)?,
    })
}

// ---- after deployment

fn zero_rule(alloc: Global, variables: &[Variable]) -> Result<Rule, NoMemory>
    ensures { IfOk result (λ r. r ≡ zero_rule variables.now) }
{
    Ok(Rule {
        vars: entry_sorts(alloc, variables)?,
        body: List::new(alloc),
        cons: zeros(alloc, variables)?,
        head: at_entry(alloc, variables)?,
    })
}

// Each variable is at most 0, and at least 0.
fn zeros(alloc: Global, variables: &[Variable]) -> Result<List<Con>, NoMemory>
    ensures { IfOk result (λ cons. cons ≡ zeros_from 0 variables.now) }
{
    let mut cons = List::new(alloc);
    let mut at = 0;
    for _variable in variables {
        add_zero(alloc, &mut cons, at)?;
        at = following(at)?;
    }
    Ok(cons)
}

fn add_zero(alloc: Global, cons: &mut List<Con>, at: u32) -> Result<(), NoMemory>
    ensures { OnOk result (cons.new ≡ cons.old ++ Con.Le (plus at (pos 0)).lin ∷ Con.Le (minus at (pos 0)).lin ∷ []) }
{
    cons.push(constraint(plus(alloc, at, 0)?))?;
    cons.push(constraint(minus(alloc, at, 0)?))
}

// The number after this one.
fn following(n: u32) -> Result<u32, NoMemory>
    ensures { IfOk result (λ m. m ≡ n + 1) }
{
    match n.checked_add(1) {
        Some(m) => Ok(m),
        None => Err(NoMemory),
    }
}

fn constraint(row: Row) -> Con
    ensures { result ≡ Con.Le row.lin }
{
    let Row { lin } = row;
    Con::Le(lin)
}

// ---- functions

// A rule for each function, and a query for each target.
fn add_functions(
    alloc: Global,
    variables: &[Variable],
    functions: &[Function],
    rules: &mut List<Rule>,
    queries: &mut List<Query>,
) -> Result<(), NoMemory>
    requires sizes { All (λ v. IsSize v.size) variables.now }
    requires typed { All (λ f. All (StepTyped variables.now) f.steps) functions.now }
    ensures rules { OnOk result (rules.new ≡ rules.old ++ map (rule_of variables.now) functions.now) }
    ensures queries { OnOk result (queries.new ≡ queries.old ++ queries_of variables.now (length queries.old) functions.now) }
{
    for function in functions {
        add_function(alloc, variables, function, rules, queries)?;
    }
    Ok(())
}

// The rule of a function, and the queries of its targets.
fn add_function(
    alloc: Global,
    variables: &[Variable],
    function: &Function,
    rules: &mut List<Rule>,
    queries: &mut List<Query>,
) -> Result<(), NoMemory>
    requires sizes { All (λ v. IsSize v.size) variables.now }
    requires typed { All (StepTyped variables.now) function.now.steps }
    ensures rules { OnOk result (rules.new ≡ rules.old ++ rule_of variables.now function.now ∷ []) }
    ensures queries { OnOk result (queries.new ≡ queries.old ++ queries_of_steps variables.now (length queries.old) function.now.steps (entry variables.now)) }
{
    let mut path = entry(alloc, variables)?;
    add_steps(
        alloc,
        variables,
        function.steps.as_slice(),
        &mut path,
        queries,
    )?;
    rules.push(rule_at(alloc, variables, path)?)
}

// At the end of a path the variables have its current values.
fn rule_at(alloc: Global, variables: &[Variable], path: Path) -> Result<Rule, NoMemory>
    ensures { IfOk result (λ r. r ≡ rule_at variables.now path) }
{
    let Path {
        rows,
        sorts,
        current,
    } = path;
    Ok(Rule {
        vars: sorts,
        body: one(alloc, at_entry(alloc, variables)?)?,
        cons: cons_of(alloc, rows)?,
        head: App {
            pred: 0,
            args: current,
        },
    })
}

fn cons_of(alloc: Global, rows: List<Row>) -> Result<List<Con>, NoMemory>
    ensures { IfOk result (λ cons. cons ≡ cons_of rows) }
{
    let mut cons = List::new(alloc);
    for row in rows.into_vec() {
        cons.push(constraint(row))?;
    }
    Ok(cons)
}

// ---- statements

// The path after statements, and the queries of their targets.
#[tactic(auto, using(crate::proofs::Queries::growth))]
fn add_steps(
    alloc: Global,
    variables: &[Variable],
    steps: &[Step],
    path: &mut Path,
    queries: &mut List<Query>,
) -> Result<(), NoMemory>
    requires sizes { All (λ v. IsSize v.size) variables.now }
    requires typed { All (StepTyped variables.now) steps.now }
    ensures path { OnOk result (path.new ≡ after_all variables.now steps.now path.old) }
    ensures queries { OnOk result (queries.new ≡ queries.old ++ queries_of_steps variables.now (length queries.old) steps.now path.old) }
{
    for step in steps {
        add_query(alloc, variables, step, path, queries)?;
        advance(alloc, variables, step, path)?;
    }
    Ok(())
}

// The query of a statement's own target, if it has one.
fn add_query(
    alloc: Global,
    variables: &[Variable],
    step: &Step,
    path: &Path,
    queries: &mut List<Query>,
) -> Result<(), NoMemory>
    requires sizes { All (λ v. IsSize v.size) variables.now }
    requires typed { StepTyped variables.now step.now }
    ensures { OnOk result (queries.new ≡ queries.old ++ own_query variables.now (length queries.old) step.now path.now) }
{
    match target(alloc, variables, step, path)? {
        None => Ok(()),
        Some(row) => {
            let number = count(queries)?;
            queries.push(query_at(alloc, variables, path, number, row)?)
        }
    }
}

// The number of queries so far, of which there are fewer than 2^32.
fn count(queries: &List<Query>) -> Result<u32, NoMemory>
    ensures { IfOk result (λ n. n ≡ length queries.now) }
{
    match u32::try_from(queries.len()) {
        Ok(n) => Ok(n),
        Err(_) => Err(NoMemory),
    }
}

fn query_at(
    alloc: Global,
    variables: &[Variable],
    path: &Path,
    number: u32,
    row: Row,
) -> Result<Query, NoMemory>
    ensures { IfOk result (λ q. q ≡ query_at variables.now path.now number row) }
{
    let mut cons = copied(alloc, path.rows.as_slice())?;
    cons.push(constraint(row))?;
    Ok(Query {
        vars: copied_sorts(alloc, path.sorts.as_slice())?,
        body: one(alloc, at_entry(alloc, variables)?)?,
        cons,
        target: number,
    })
}

// The rows of a path as constraints, for a query; the path goes on.
fn copied(alloc: Global, rows: &[Row]) -> Result<List<Con>, NoMemory>
    ensures { IfOk result (λ cons. cons ≡ cons_of rows.now) }
{
    let mut cons = List::new(alloc);
    for row in rows {
        cons.push(constraint(row.copy(alloc)?))?;
    }
    Ok(cons)
}

fn copied_sorts(alloc: Global, sorts: &[Sort]) -> Result<List<Sort>, NoMemory>
    ensures { IfOk result (λ list. list ≡ sorts.now) }
{
    let mut list = List::new(alloc);
    for sort in sorts {
        list.push(copied_sort(alloc, sort)?)?;
    }
    Ok(list)
}

fn copied_sort(alloc: Global, sort: &Sort) -> Result<Sort, NoMemory>
    ensures { IfOk result (λ s. s ≡ sort.now) }
{
    match sort {
        Sort::Whole(value) => Ok(Sort::Whole(*value)),
        Sort::Free => Ok(Sort::Free),
        Sort::Map(keys, value) => Ok(Sort::Map(keys.copy(alloc)?, *value)),
    }
}
