// Parameters, and what functions return.

ghost use Rattle.std.specs.Prelude.{◌≡◌};
ghost use Rattle.sol_judged.specs.Judged.{Judges};
ghost use Rattle.sol_stated.specs.Checks.{Works};
ghost use Rattle.sol_stated.specs.Contexts.{OfType, context, bare};
ghost use Rattle.sol_stated.specs.ValueTypes.{value_type};
ghost use Rattle.sol_stated.specs.Bodies.{named_or_not, param, params};

use crate::context::{Around, without_locals};
use crate::scope::{Scope, declare_named, declare_unnamed};
use crate::value_types::value_type;
use sol_judged::{TypeFault, ValueType};
use sol_tree::{Identifier, Param};
use std::alloc::Global;

/// The type of a parameter. A name in it means no local.
pub fn param_type(around: &Around<'_>, param: &Param) -> Result<ValueType, TypeFault>
    ensures { Judges OfType (value_type (bare (context around.now)) param.now.ty) result }
{
    let w = without_locals(around);
    value_type(&w, &param.ty)
}

/// A parameter of a type, with or without a name.
pub fn declare_param(
    alloc: Global,
    ty: ValueType,
    name: &Option<Identifier>,
    scope: &mut Scope,
) -> Result<(), TypeFault>
    ensures { Works (named_or_not (OfType ty) name.now scope.old) result scope.new }
{
    match name {
        None => declare_unnamed(scope),
        Some(name) => declare_named(alloc, ty, name, scope),
    }
}

#[tactic(auto, using(sol_judged::proofs::Faults::faults), unfolding(crate::specs::Bodies::param))]
fn judge_param(
    alloc: Global,
    around: &Around<'_>,
    written: &Param,
    scope: &mut Scope,
) -> Result<(), TypeFault>
    ensures { Works (param (context around.now) written.now scope.old) result scope.new }
{
    let ty = param_type(around, written)?;
    declare_param(alloc, ty, &written.name, scope)
}

/// Parameters in order.
#[tactic(auto, using(crate::proofs::Turns::params_in_turn))]
pub fn judge_params(
    alloc: Global,
    around: &Around<'_>,
    all: &[Param],
    scope: &mut Scope,
) -> Result<(), TypeFault>
    ensures { Works (params (context around.now) all.now scope.old) result scope.new }
{
    for param in all {
        judge_param(alloc, around, param, scope)?;
    }
    Ok(())
}
