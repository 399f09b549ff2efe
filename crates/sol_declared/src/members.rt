// What members keep.

ghost use Rattle.std.specs.Prelude.{◌≡◌};
ghost use Rattle.sol_judged.specs.Settings.{setting};
ghost use Rattle.sol_stated.specs.Checks.{Checks};
ghost use Rattle.sol_stated.specs.Contexts.{context, bare};
ghost use Rattle.sol_declared.specs.Members.{typed_variable, variable, function, modifier, event_param, error_param, event, error, declared_member, judge_member, judge_members};

use crate::initialisers::check_initial;
use crate::kinds::{UnitKind, check_kind};
use crate::specifiers::{
    check_function_overrides, check_function_specifiers, check_modifier_overrides,
    check_variable_overrides, check_variable_specifiers,
};
use crate::state_types::state_type;
use sol_judged::{Surroundings, TypeFault};
use sol_stated::{
    Around, judge_constructor, judge_function, judge_modifier, value_type, without_locals,
};
use sol_tree::{Error, Event, EventParam, Fun, Member, Modifier, Param, Var};
use std::alloc::Global;

#[tactic(auto, using(sol_judged::proofs::Faults::faults))]
fn check_typed_variable(alloc: Global, around: &Around<'_>, var: &Var) -> Result<(), TypeFault>
    ensures { Checks (typed_variable (bare (context around.now)) var.now) result }
{
    let ty = state_type(&without_locals(around), &var.ty)?;
    check_initial(alloc, around, ty, var)
}

#[tactic(auto, using(sol_judged::proofs::Faults::faults), unfolding(crate::specs::Members::variable))]
fn check_variable(alloc: Global, around: &Around<'_>, var: &Var) -> Result<(), TypeFault>
    ensures { Checks (variable (bare (context around.now)) var.now) result }
{
    check_variable_specifiers(var)?;
    check_variable_overrides(&without_locals(around), var.specifiers.as_slice())?;
    check_typed_variable(alloc, around, var)
}

#[tactic(auto, using(sol_judged::proofs::Faults::faults), unfolding(crate::specs::Members::function))]
fn check_function(alloc: Global, around: &Around<'_>, fun: &Fun) -> Result<(), TypeFault>
    ensures { Checks (function (context around.now) fun.now) result }
{
    check_function_specifiers(fun)?;
    check_function_overrides(&without_locals(around), fun.specifiers.as_slice())?;
    judge_function(alloc, around, fun)
}

#[tactic(auto, using(sol_judged::proofs::Faults::faults), unfolding(crate::specs::Members::modifier))]
fn check_modifier(alloc: Global, around: &Around<'_>, written: &Modifier) -> Result<(), TypeFault>
    ensures { Checks (modifier (context around.now) written.now) result }
{
    check_modifier_overrides(&without_locals(around), written.specifiers.as_slice())?;
    judge_modifier(alloc, around, written)
}

// ---- events and errors

#[tactic(auto, using(sol_judged::proofs::Faults::faults))]
fn check_event_param(w: &Surroundings<'_>, param: &EventParam) -> Result<(), TypeFault>
    ensures { Checks (event_param (setting w.now) param.now) result }
{
    let _ty = value_type(w, &param.ty)?;
    Ok(())
}

/// The types of an event's parameters.
#[tactic(auto, using(sol_stated::proofs::Turns::checks))]
pub fn judge_event(w: &Surroundings<'_>, all: &Event) -> Result<(), TypeFault>
    ensures { Checks (event (setting w.now) all.now) result }
{
    for param in all.params.as_slice() {
        check_event_param(w, param)?;
    }
    Ok(())
}

#[tactic(auto, using(sol_judged::proofs::Faults::faults))]
fn check_error_param(w: &Surroundings<'_>, param: &Param) -> Result<(), TypeFault>
    ensures { Checks (error_param (setting w.now) param.now) result }
{
    let _ty = value_type(w, &param.ty)?;
    Ok(())
}

/// The types of an error's parameters.
#[tactic(auto, using(sol_stated::proofs::Turns::checks))]
pub fn judge_error(w: &Surroundings<'_>, all: &Error) -> Result<(), TypeFault>
    ensures { Checks (error (setting w.now) all.now) result }
{
    for param in all.params.as_slice() {
        check_error_param(w, param)?;
    }
    Ok(())
}

// ---- members

fn check_declared(alloc: Global, around: &Around<'_>, member: &Member) -> Result<(), TypeFault>
    ensures { Checks (declared_member (context around.now) member.now) result }
{
    match member {
        Member::Var { var, .. } => check_variable(alloc, around, var),
        Member::Fun { fun, .. } => check_function(alloc, around, fun),
        Member::Constructor { constructor, .. } => judge_constructor(alloc, around, constructor),
        Member::Modifier { modifier, .. } => check_modifier(alloc, around, modifier),
        Member::Event { event, .. } => judge_event(&without_locals(around), event),
        Member::Error { error, .. } => judge_error(&without_locals(around), error),
    }
}

#[tactic(auto, using(sol_judged::proofs::Faults::faults), unfolding(crate::specs::Members::judge_member))]
fn check_member(
    alloc: Global,
    around: &Around<'_>,
    kind: UnitKind,
    member: &Member,
) -> Result<(), TypeFault>
    ensures { Checks (judge_member (context around.now) kind member.now) result }
{
    check_kind(kind, member)?;
    check_declared(alloc, around, member)
}

/// The members of a unit of a kind.
#[tactic(auto, using(sol_stated::proofs::Turns::checks))]
pub fn judge_members(
    alloc: Global,
    around: &Around<'_>,
    kind: UnitKind,
    members: &[Member],
) -> Result<(), TypeFault>
    ensures { Checks (judge_members (context around.now) kind members.now) result }
{
    for member in members {
        check_member(alloc, around, kind, member)?;
    }
    Ok(())
}
