// Simple statements: what may stand before a `;` and in the head of a `for`.

ghost use Rattle.std.specs.Prelude.{◌≡◌};
ghost use Rattle.sol_judged.specs.Judged.{Judges};
ghost use Rattle.sol_judged.specs.Found.{Known};
ghost use Rattle.sol_stated.specs.Checks.{Checks, Works};
ghost use Rattle.sol_stated.specs.Contexts.{OfType, context, setting_in};
ghost use Rattle.sol_stated.specs.Declarations.{initial_value, initial_type, declaration};
ghost use Rattle.sol_stated.specs.Simples.{alone, expression, judge_simple};

use crate::context::{Around, judge_in};
use crate::scope::{Scope, declare_named};
use crate::targets::{check_assignment, check_deleted, check_stepped};
use crate::value_types::type_in;
use crate::values::value_in;
use sol_judged::{Found, Rule, TypeFault, ValueType};
use sol_tree::{ExprTree, Identifier, Initial, Simple, Type};
use std::alloc::Global;

fn check_initial(
    alloc: Global,
    around: &Around<'_>,
    scope: &Scope,
    ty: ValueType,
    initial: &Option<Initial>,
) -> Result<(), TypeFault>
    ensures { Checks (initial_value (setting_in (context around.now) scope.now) (OfType ty) initial.now) result }
{
    match initial {
        None => Ok(()),
        Some(i) => value_in(
            alloc,
            around,
            scope,
            Rule::AssignedValue,
            i.at,
            ty,
            &i.value,
        ),
    }
}

#[tactic(auto, using(sol_judged::proofs::Faults::faults))]
fn initial_type(
    alloc: Global,
    around: &Around<'_>,
    scope: &Scope,
    ty: &Type,
    initial: &Option<Initial>,
) -> Result<ValueType, TypeFault>
    ensures { Judges OfType (initial_type (setting_in (context around.now) scope.now) ty.now initial.now) result }
{
    let ty = type_in(around, scope, ty)?;
    check_initial(alloc, around, scope, ty, initial)?;
    Ok(ty)
}

#[tactic(auto, using(sol_judged::proofs::Faults::faults), unfolding(crate::specs::Declarations::declaration))]
fn declaration(
    alloc: Global,
    around: &Around<'_>,
    ty: &Type,
    name: &Identifier,
    initial: &Option<Initial>,
    scope: &mut Scope,
) -> Result<(), TypeFault>
    ensures { Works (declaration (context around.now) ty.now name.now initial.now scope.old) result scope.new }
{
    let ty = initial_type(alloc, around, scope, ty, initial)?;
    declare_named(alloc, ty, name, scope)
}

// An expression that stands alone is a call.
#[tactic(auto, unfolding(crate::specs::Simples::alone))]
fn check_alone(expr: &ExprTree, found: &Found) -> Result<(), TypeFault>
    ensures { Checks (alone expr.now (Known found.now)) result }
{
    match found {
        Found::Call(_, _) => Ok(()),
        _ => Err(TypeFault::Broken {
            rule: Rule::Statement,
            at: expr.at(),
        }),
    }
}

#[tactic(auto, using(sol_judged::proofs::Faults::faults), unfolding(crate::specs::Simples::expression))]
fn check_expression(
    alloc: Global,
    around: &Around<'_>,
    scope: &Scope,
    expr: &ExprTree,
) -> Result<(), TypeFault>
    ensures { Checks (expression (setting_in (context around.now) scope.now) expr.now) result }
{
    let found = judge_in(alloc, around, scope, expr)?;
    check_alone(expr, &found)
}

/// What a simple statement does to the scope.
#[tactic(auto, using(sol_judged::proofs::Faults::faults), unfolding(crate::specs::Simples::judge_simple))]
pub fn judge_simple(
    alloc: Global,
    around: &Around<'_>,
    simple: &Simple,
    scope: &mut Scope,
) -> Result<(), TypeFault>
    ensures { Works (judge_simple (context around.now) simple.now scope.old) result scope.new }
{
    match simple {
        Simple::Declaration {
            ty,
            name,
            initial,
            ..
        } => declaration(alloc, around, ty, name, initial, scope),
        Simple::Assignment {
            target,
            operator_at,
            operator,
            value,
            ..
        } => check_assignment(alloc, around, scope, target, *operator, *operator_at, value),
        Simple::StepAfter { target, .. } => check_stepped(alloc, around, scope, target),
        Simple::StepBefore { target, .. } => check_stepped(alloc, around, scope, target),
        Simple::Delete { target, .. } => check_deleted(alloc, around, scope, target),
        Simple::Expression { expr, .. } => check_expression(alloc, around, scope, expr),
    }
}
