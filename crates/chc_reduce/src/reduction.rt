// The formula that has to be refuted.

ghost use Rattle.std.specs.Prelude.{◌≡◌, ◌<◌, ◌^◌, ◌++◌, ◌∷◌, [], true, length, map, IfOk, OnOk, option_copied, neg_ℤ, if◌then◌else◌, ◌==◌};
ghost use Rattle.std.specs.List.{list_all};
ghost use Rattle.chc_nums.specs.Types.{IsType, greatest};
ghost use Rattle.chc_form.specs.declared.formula.Formula.{And};
ghost use Rattle.chc_form.specs.WellMade.{is_sort, well_made};
ghost use Rattle.chc_reduce.specs.Reduced.{lower, upper, range_of, ranges, at_most, refuted, granted, constraint, instance_of, instances_at, instances, reduced_rule, reduced_query, reduced};

use crate::literals::{literal_sum, opposite_sum};
use chc_form::{App, Con, Formula, Lemma, Lin, Lit, Part, Query, Rule, Sort, System};
use chc_nums::{List, NoMemory, Ty, range};
use sqlite_items::Items;
use std::alloc::Global;

// ---- ranges

fn lower(alloc: Global, x: u32, ty: Ty) -> Result<Lin, NoMemory>
    requires { IsType ty }
    ensures { IfOk result (λ l. l ≡ lower x ty) }
{
    let mut terms = List::new(alloc);
    terms.push((x, -1))?;
    let (least, _) = range(ty);
    Ok(Lin {
        terms,
        konst: least,
    })
}

// The opposite of the greatest value.
fn below_greatest(ty: Ty) -> i128
    requires { IsType ty }
    ensures { result ≡ neg_ℤ (greatest ty) }
{
    -range(ty).1
}

fn upper(alloc: Global, x: u32, ty: Ty) -> Result<Lin, NoMemory>
    requires { IsType ty }
    ensures { IfOk result (λ l. l ≡ upper x ty) }
{
    let mut terms = List::new(alloc);
    terms.push((x, 1))?;
    Ok(Lin {
        terms,
        konst: below_greatest(ty),
    })
}

fn range_of(alloc: Global, x: u32, ty: Ty) -> Result<Formula, NoMemory>
    requires { IsType ty }
    ensures { IfOk result (λ f. f ≡ range_of x ty) }
{
    let mut both = Items::new(alloc);
    both.push(Formula::Le(lower(alloc, x, ty)?))?;
    both.push(Formula::Le(upper(alloc, x, ty)?))?;
    Ok(Formula::And(both))
}

// The range of a variable of a sort that is a type's.
#[tactic(auto, using(crate::proofs::Sorts::sorts))]
fn add_range(alloc: Global, x: u32, sort: &Sort, parts: &mut Items<Formula>) -> Result<(), NoMemory>
    requires { is_sort sort.now ≡ true }
    ensures { OnOk result (parts.new ≡ parts.old ++ ranges x (sort.now ∷ [])) }
{
    match sort {
        Sort::Whole(ty) => Ok(parts.push(range_of(alloc, x, *ty)?)?),
        Sort::Free | Sort::Map(_, _) => Ok(()),
    }
}

#[tactic(auto, using(crate::proofs::Sorts::turns))]
pub fn add_ranges(alloc: Global, sorts: &[Sort], parts: &mut Items<Formula>) -> Result<(), NoMemory>
    requires sorts { list_all is_sort sorts.now ≡ true }
    requires few { length sorts.now < 2 ^ 31 }
    ensures { OnOk result (parts.new ≡ parts.old ++ ranges 0 sorts.now) }
{
    let mut x = 0;
    let mut rest = sorts;
    while let [sort, more @ ..] = rest {
        add_range(alloc, x, sort, parts)?;
        x += 1;
        rest = more;
    }
    Ok(())
}

// ---- literals

// What is left out stands as the empty `And`.
fn at_most(alloc: Global, sum: Option<Lin>) -> Formula
    ensures { result ≡ at_most sum }
{
    match sum {
        None => Formula::And(Items::new(alloc)),
        Some(l) => Formula::Le(l),
    }
}

fn refuted(alloc: Global, head: &App, literal: &Lit) -> Result<Formula, NoMemory>
    ensures { IfOk result (λ f. f ≡ refuted head.now literal.now) }
{
    Ok(at_most(alloc, opposite_sum(alloc, head, literal)?))
}

fn granted(alloc: Global, atom: &App, literal: &Lit) -> Result<Formula, NoMemory>
    ensures { IfOk result (λ f. f ≡ granted atom.now literal.now) }
{
    Ok(at_most(alloc, literal_sum(alloc, atom, literal)?))
}

pub fn add_goal(
    alloc: Global,
    head: &App,
    literals: &[Lit],
    parts: &mut Items<Formula>,
) -> Result<(), NoMemory>
    ensures { OnOk result (parts.new ≡ parts.old ++ map (refuted head.now) literals.now) }
{
    for literal in literals {
        parts.push(refuted(alloc, head, literal)?)?;
    }
    Ok(())
}

// ---- constraints

fn constraint(alloc: Global, con: &Con) -> Result<Formula, NoMemory>
    ensures { IfOk result (λ f. f ≡ constraint con.now) }
{
    match con {
        Con::Le(l) => Ok(Formula::Le(l.copy(alloc)?)),
        Con::Differ(_)
        | Con::Mul(_, _, _)
        | Con::Div(_, _, _)
        | Con::Rem(_, _, _)
        | Con::Sel(_, _, _)
        | Con::Sto(_, _, _, _)
        | Con::Zero(_) => Ok(Formula::And(Items::new(alloc))),
    }
}

fn add_constraints(alloc: Global, cons: &[Con], parts: &mut Items<Formula>) -> Result<(), NoMemory>
    ensures { OnOk result (parts.new ≡ parts.old ++ map constraint cons.now) }
{
    for con in cons {
        parts.push(constraint(alloc, con)?)?;
    }
    Ok(())
}

// ---- lemmas of the body's atoms

fn alternatives(alloc: Global, atom: &App, literals: &[Lit]) -> Result<Items<Formula>, NoMemory>
    ensures { IfOk result (λ fs. fs ≡ map (granted atom.now) literals.now) }
{
    let mut all = Items::new(alloc);
    for literal in literals {
        all.push(granted(alloc, atom, literal)?)?;
    }
    Ok(all)
}

fn add_instance(
    alloc: Global,
    atom: &App,
    lemma: &Lemma,
    parts: &mut Items<Formula>,
) -> Result<(), NoMemory>
    ensures { OnOk result (parts.new ≡ parts.old ++ (if lemma.now.pred == atom.now.pred then instance_of atom.now lemma.now lemma.now.keys else [])) }
{
    if lemma.pred != atom.pred {
        return Ok(());
    }
    match lemma.keys.as_slice() {
        [] => {
            let all = alternatives(alloc, atom, lemma.lits.as_slice())?;
            Ok(parts.push(Formula::Or(all))?)
        }
        _ => Ok(()),
    }
}

fn add_instances_at(
    alloc: Global,
    atom: &App,
    lemmas: &[Lemma],
    parts: &mut Items<Formula>,
) -> Result<(), NoMemory>
    ensures { OnOk result (parts.new ≡ parts.old ++ instances_at atom.now lemmas.now) }
{
    for lemma in lemmas {
        add_instance(alloc, atom, lemma, parts)?;
    }
    Ok(())
}

fn add_instances(
    alloc: Global,
    body: &[App],
    lemmas: &[Lemma],
    parts: &mut Items<Formula>,
) -> Result<(), NoMemory>
    ensures { OnOk result (parts.new ≡ parts.old ++ instances body.now lemmas.now) }
{
    for atom in body {
        add_instances_at(alloc, atom, lemmas, parts)?;
    }
    Ok(())
}

// ---- the whole

// What constraints and the lemmas of the body's atoms say, after parts that there are.
pub fn premises(
    alloc: Global,
    parts: Items<Formula>,
    cons: &[Con],
    body: &[App],
    lemmas: &[Lemma],
) -> Result<Formula, NoMemory>
    ensures { IfOk result (λ f. f ≡ And (parts ++ (map constraint cons.now ++ instances body.now lemmas.now))) }
{
    let mut parts = parts;
    add_constraints(alloc, cons, &mut parts)?;
    add_instances(alloc, body, lemmas, &mut parts)?;
    Ok(Formula::And(parts))
}

#[tactic(auto, unfolding(crate::specs::Reduced::reduced_rule))]
fn reduce_rule(
    alloc: Global,
    rule: &Rule,
    goal: Option<&Lemma>,
    lemmas: &[Lemma],
) -> Result<Formula, NoMemory>
    requires sorts { list_all is_sort rule.now.vars ≡ true }
    requires few { length rule.now.vars < 2 ^ 31 }
    ensures { IfOk result (λ f. f ≡ reduced_rule rule.now (option_copied goal.entry) lemmas.now) }
{
    let mut parts = Items::new(alloc);
    add_ranges(alloc, rule.vars.as_slice(), &mut parts)?;
    if let Some(lemma) = goal {
        add_goal(alloc, &rule.head, lemma.lits.as_slice(), &mut parts)?;
    }
    premises(
        alloc,
        parts,
        rule.cons.as_slice(),
        rule.body.as_slice(),
        lemmas,
    )
}

#[tactic(auto, unfolding(crate::specs::Reduced::reduced_query))]
fn reduce_query(alloc: Global, query: &Query, lemmas: &[Lemma]) -> Result<Formula, NoMemory>
    requires sorts { list_all is_sort query.now.vars ≡ true }
    requires few { length query.now.vars < 2 ^ 31 }
    ensures { IfOk result (λ f. f ≡ reduced_query query.now lemmas.now) }
{
    let mut parts = Items::new(alloc);
    add_ranges(alloc, query.vars.as_slice(), &mut parts)?;
    premises(
        alloc,
        parts,
        query.cons.as_slice(),
        query.body.as_slice(),
        lemmas,
    )
}

/// The formula that has to be refuted, so that a lemma is true at a rule's head, or a query is refuted, under lemmas. A
/// goal beside a query is not looked at.
#[tactic(auto, using(crate::proofs::Sorts::parts))]
pub fn reduce(
    alloc: Global,
    s: &System,
    part: Part,
    goal: Option<&Lemma>,
    lemmas: &[Lemma],
) -> Result<Formula, NoMemory>
    requires { well_made s.now ≡ true }
    ensures { IfOk result (λ f. f ≡ reduced s.now part (option_copied goal.entry) lemmas.now) }
{
    match part {
        Part::Rule(i) => match s.rules.get(i as usize) {
            None => Ok(Formula::And(Items::new(alloc))),
            Some(rule) => reduce_rule(alloc, rule, goal, lemmas),
        },
        Part::Query(i) => match s.queries.get(i as usize) {
            None => Ok(Formula::And(Items::new(alloc))),
            Some(query) => reduce_query(alloc, query, lemmas),
        },
    }
}
