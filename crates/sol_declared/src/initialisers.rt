// Initial values of state variables.

ghost use Rattle.std.specs.Prelude.{◌≡◌, Some, map};
ghost use Rattle.sol_judged.specs.Settings.{setting};
ghost use Rattle.sol_judged.specs.declared.rules.Rule.TheVariants as rule;
ghost use Rattle.sol_stated.specs.Checks.{Checks, check};
ghost use Rattle.sol_stated.specs.Contexts.{context, bare};
ghost use Rattle.sol_declared.specs.Initialisers.{reads_variable, names_unit, all_little, reading, initial_for, initialised};

use crate::specifiers::has_constant;
use crate::state_types::StateType;
use sol_judged::{Meaning, Rule, Surroundings, TypeFault, meaning_of};
use sol_stated::{Around, Scope, value_in, without_locals};
use sol_tree::{ExprTree, Initial, Var};
use std::alloc::Global;

fn reads_variable(meaning: Option<Meaning>) -> bool
    ensures { result ≡ reads_variable meaning }
{
    match meaning {
        Some(Meaning::Local(_, _)) => true,
        Some(Meaning::Scalar(_, _)) => true,
        Some(Meaning::Mapping(_)) => true,
        Some(Meaning::Array(_, _)) => true,
        _ => false,
    }
}

fn names_unit(meaning: Option<Meaning>) -> bool
    ensures { result ≡ names_unit meaning }
{
    match meaning {
        Some(Meaning::Contract(_)) => true,
        Some(Meaning::Interface(_)) => true,
        _ => false,
    }
}

// Whether an expression is the name of a contract or an interface.
#[tactic(auto, using(crate::proofs::Readings::readings))]
fn is_unit(w: &Surroundings<'_>, e: &ExprTree) -> bool
    ensures { result ≡ (reading (setting w.now) e.now).is_unit }
{
    match e {
        ExprTree::Named { name, .. } => names_unit(meaning_of(w, name.as_str())),
        ExprTree::Parenthesised { inner, .. } => is_unit(w, inner.get()),
        ExprTree::Number { .. } => false,
        ExprTree::True { .. } => false,
        ExprTree::False { .. } => false,
        ExprTree::Conversion { .. } => false,
        ExprTree::TypeMember { .. } => false,
        ExprTree::MessageMember { .. } => false,
        ExprTree::SuperMember { .. } => false,
        ExprTree::Index { .. } => false,
        ExprTree::Member { .. } => false,
        ExprTree::Call { .. } => false,
        ExprTree::Not { .. } => false,
        ExprTree::Negation { .. } => false,
        ExprTree::Binary { .. } => false,
        ExprTree::Choice { .. } => false,
    }
}

// Whether an expression reads literals, constants and `msg.sender` alone.
#[cycle(readings)]
#[tactic(auto, using(crate::proofs::Readings::readings))]
fn reads_little(w: &Surroundings<'_>, e: &ExprTree) -> bool
    ensures { result ≡ (reading (setting w.now) e.now).is_little }
{
    match e {
        ExprTree::Number { .. } => true,
        ExprTree::True { .. } => true,
        ExprTree::False { .. } => true,
        ExprTree::Named { name, .. } => !reads_variable(meaning_of(w, name.as_str())),
        ExprTree::Parenthesised { inner, .. } => reads_little(w, inner.get()),
        ExprTree::Conversion { value, .. } => reads_little(w, value.get()),
        ExprTree::TypeMember { .. } => true,
        ExprTree::MessageMember { .. } => true,
        ExprTree::SuperMember { .. } => false,
        ExprTree::Index { .. } => false,
        ExprTree::Member { .. } => false,
        ExprTree::Call {
            callee,
            arguments,
            ..
        } => is_unit(w, callee.get()) && all_read_little(w, arguments.as_slice()),
        ExprTree::Not { operand, .. } => reads_little(w, operand.get()),
        ExprTree::Negation { operand, .. } => reads_little(w, operand.get()),
        ExprTree::Binary { left, right, .. } => {
            reads_little(w, left.get()) && reads_little(w, right.get())
        }
        ExprTree::Choice {
            condition,
            chosen,
            otherwise,
            ..
        } => {
            reads_little(w, condition.get())
                && (reads_little(w, chosen.get()) && reads_little(w, otherwise.get()))
        }
    }
}

#[cycle(readings)]
fn all_read_little(w: &Surroundings<'_>, all: &[ExprTree]) -> bool
    ensures { result ≡ all_little (map (reading (setting w.now)) all.now) }
{
    for e in all {
        if !reads_little(w, e) {
            return false;
        }
    }
    true
}

// ---- initial values

// A value for a variable; a mapping or an array has none.
#[tactic(auto, unfolding(crate::specs::Initialisers::initial_for))]
fn check_initial_for(
    alloc: Global,
    around: &Around<'_>,
    ty: StateType,
    initial: &Initial,
) -> Result<(), TypeFault>
    ensures { Checks (initial_for (bare (context around.now)) (Some ty) initial.now) result }
{
    match ty {
        StateType::Value(t) => {
            let scope = Scope::new(alloc);
            let rule = Rule::AssignedValue;
            value_in(alloc, around, &scope, rule, initial.at, t, &initial.value)
        }
        StateType::Array(_) => Err(TypeFault::Broken {
            rule: Rule::AssignedValue,
            at: initial.at,
        }),
        StateType::Mapping(_, _, _) => Err(TypeFault::Broken {
            rule: Rule::AssignedValue,
            at: initial.at,
        }),
    }
}

fn check_reading(around: &Around<'_>, var: &Var, initial: &Initial) -> Result<(), TypeFault>
    ensures { Checks (check (reading (bare (context around.now)) initial.now.value).is_little rule.Initialiser var.now.name.at) result }
{
    if reads_little(&without_locals(around), &initial.value) {
        Ok(())
    } else {
        Err(TypeFault::Broken {
            rule: Rule::Initialiser,
            at: var.name.at,
        })
    }
}

#[tactic(auto, using(sol_judged::proofs::Faults::faults))]
fn check_some_initial(
    alloc: Global,
    around: &Around<'_>,
    ty: StateType,
    var: &Var,
    initial: &Initial,
) -> Result<(), TypeFault>
    ensures { Checks (initialised (bare (context around.now)) (Some ty) var.now (Some initial.now)) result }
{
    check_reading(around, var, initial)?;
    check_initial_for(alloc, around, ty, initial)
}

/// The initial value of a variable, or that it needs none.
pub fn check_initial(
    alloc: Global,
    around: &Around<'_>,
    ty: StateType,
    var: &Var,
) -> Result<(), TypeFault>
    ensures { Checks (initialised (bare (context around.now)) (Some ty) var.now var.now.initial) result }
{
    match &var.initial {
        Some(initial) => check_some_initial(alloc, around, ty, var, initial),
        None => {
            if has_constant(var.specifiers.as_slice()) {
                Err(TypeFault::Broken {
                    rule: Rule::Initialiser,
                    at: var.name.at,
                })
            } else {
                Ok(())
            }
        }
    }
}
