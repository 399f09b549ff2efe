// What is assigned to, stepped or deleted.

ghost use Rattle.std.specs.Prelude.{◌≡◌, Some};
ghost use Rattle.sol_judged.specs.declared.fault.TypeFault.TheVariants as fault;
ghost use Rattle.sol_judged.specs.declared.rules.Rule.TheVariants as rule;
ghost use Rattle.sol_judged.specs.Judged.{Judges};
ghost use Rattle.sol_judged.specs.Found.{Known};
ghost use Rattle.sol_stated.specs.Checks.{Checks};
ghost use Rattle.sol_stated.specs.Contexts.{context, setting_in};
ghost use Rattle.sol_stated.specs.Targets.{target_of, stepped, deletable, deleted, are_integers, operand_for, compounded, put, value_put, assignment};

use crate::context::{Around, judge_in};
use crate::scope::Scope;
use crate::values::whole_value;
use sol_judged::{Found, Rule, TypeFault, Value, ValueType, common, is_integer, side, widens};
use sol_tree::{AssignOp, ExprTree};
use std::alloc::Global;

fn no_place(first: u32) -> TypeFault
    ensures { result ≡ fault.Broken rule.AssignedPlace first }
{
    TypeFault::Broken {
        rule: Rule::AssignedPlace,
        at: first,
    }
}

#[tactic(auto, unfolding(crate::specs::Targets::target_of))]
fn target_of(target: &ExprTree, found: &Found) -> Result<ValueType, TypeFault>
    ensures { Judges Some (target_of target.now (Known found.now)) result }
{
    match found {
        Found::Place(_, ty, _) => Ok(*ty),
        _ => Err(no_place(target.at())),
    }
}

/// A place of an integer type is stepped by one.
#[tactic(auto, using(sol_judged::proofs::Faults::faults), unfolding(crate::specs::Targets::stepped))]
pub fn check_stepped(
    alloc: Global,
    around: &Around<'_>,
    scope: &Scope,
    target: &ExprTree,
) -> Result<(), TypeFault>
    ensures { Checks (stepped (setting_in (context around.now) scope.now) target.now) result }
{
    let found = judge_in(alloc, around, scope, target)?;
    let ty = target_of(target, &found)?;
    if is_integer(ty) {
        Ok(())
    } else {
        Err(no_place(target.at()))
    }
}

#[tactic(auto, using(sol_judged::proofs::Faults::faults), unfolding(crate::specs::Targets::deletable))]
fn check_deletable(target: &ExprTree, found: &Found) -> Result<(), TypeFault>
    ensures { Checks (deletable target.now (Known found.now)) result }
{
    if let Found::Array(_, _, _) = found {
        return Ok(());
    }
    let _ty = target_of(target, found)?;
    Ok(())
}

/// A place or an array is deleted.
#[tactic(auto, using(sol_judged::proofs::Faults::faults), unfolding(crate::specs::Targets::deleted))]
pub fn check_deleted(
    alloc: Global,
    around: &Around<'_>,
    scope: &Scope,
    target: &ExprTree,
) -> Result<(), TypeFault>
    ensures { Checks (deleted (setting_in (context around.now) scope.now) target.now) result }
{
    let found = judge_in(alloc, around, scope, target)?;
    check_deletable(target, &found)
}

// ---- assignments

fn are_integers(ty: Option<ValueType>) -> bool
    ensures { result ≡ are_integers ty }
{
    match ty {
        None => false,
        Some(ty) => is_integer(ty),
    }
}

fn check_operand(at: u32, ty: ValueType, value: &Value) -> Result<(), TypeFault>
    ensures { Checks (operand_for at ty (Some value.now)) result }
{
    if !are_integers(common(ty, value.ty)) {
        Err(TypeFault::Broken {
            rule: Rule::Operands,
            at,
        })
    } else if widens(value.ty, ty) {
        Ok(())
    } else {
        Err(TypeFault::Broken {
            rule: Rule::AssignedValue,
            at,
        })
    }
}

// `+=` and its kin.
#[tactic(auto, using(sol_judged::proofs::Faults::faults), unfolding(crate::specs::Targets::compounded))]
fn check_compound(
    alloc: Global,
    at: u32,
    ty: ValueType,
    first: u32,
    found: Found,
) -> Result<(), TypeFault>
    ensures { Checks (compounded at (Some ty) first (Known found)) result }
{
    let value = side(alloc, Rule::Operands, at, Some(ty), first, found)?;
    check_operand(at, ty, &value)
}

fn check_put(
    alloc: Global,
    operator: AssignOp,
    at: u32,
    ty: ValueType,
    first: u32,
    found: Found,
) -> Result<(), TypeFault>
    ensures { Checks (put operator at (Some ty) first (Known found)) result }
{
    match operator {
        AssignOp::Assign => whole_value(alloc, Rule::AssignedValue, at, ty, first, found),
        AssignOp::Add => check_compound(alloc, at, ty, first, found),
        AssignOp::Subtract => check_compound(alloc, at, ty, first, found),
        AssignOp::Multiply => check_compound(alloc, at, ty, first, found),
        AssignOp::Divide => check_compound(alloc, at, ty, first, found),
        AssignOp::Remainder => check_compound(alloc, at, ty, first, found),
    }
}

#[tactic(auto, using(sol_judged::proofs::Faults::faults), unfolding(crate::specs::Targets::value_put))]
fn check_value(
    alloc: Global,
    around: &Around<'_>,
    scope: &Scope,
    operator: AssignOp,
    at: u32,
    ty: ValueType,
    value: &ExprTree,
) -> Result<(), TypeFault>
    ensures { Checks (value_put (setting_in (context around.now) scope.now) operator at (Some ty) value.now) result }
{
    let found = judge_in(alloc, around, scope, value)?;
    check_put(alloc, operator, at, ty, value.at(), found)
}

/// A value is assigned to a place.
#[tactic(auto, using(sol_judged::proofs::Faults::faults), unfolding(crate::specs::Targets::assignment))]
pub fn check_assignment(
    alloc: Global,
    around: &Around<'_>,
    scope: &Scope,
    target: &ExprTree,
    operator: AssignOp,
    at: u32,
    value: &ExprTree,
) -> Result<(), TypeFault>
    ensures { Checks (assignment (setting_in (context around.now) scope.now) target.now operator at value.now) result }
{
    let found = judge_in(alloc, around, scope, target)?;
    let ty = target_of(target, &found)?;
    check_value(alloc, around, scope, operator, at, ty, value)
}
