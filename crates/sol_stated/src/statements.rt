// What statements do to the scope.

ghost use Rattle.std.specs.Prelude.{◌≡◌};
ghost use Rattle.std.specs.Option.{option_map};
ghost use Rattle.sol_stated.specs.Checks.{Checks, Works};
ghost use Rattle.sol_stated.specs.Contexts.{OfType, context, setting_in};
ghost use Rattle.sol_stated.specs.Returns.{returned_type, returned, jump, placeholder};
ghost use Rattle.sol_stated.specs.Statements.{judge_block, or_nothing, tested, simple_or_nothing, tested_or_nothing, for_head, statement};

use crate::context::{Around, Body, looping, unchecked};
use crate::marks::{check_emit, check_revert};
use crate::scope::{Scope, close_to};
use crate::simple::judge_simple;
use crate::values::{condition, value_in};
use sol_judged::{Rule, TypeFault, ValueType};
use sol_tree::{ExprTree, Simple, Stmt};
use sqlite_items::Boxed;
use std::alloc::Global;

#[tactic(auto, using(sol_judged::proofs::Faults::faults), unfolding(crate::specs::Statements::tested))]
fn check_condition(
    alloc: Global,
    around: &Around<'_>,
    e: &ExprTree,
    scope: &mut Scope,
) -> Result<(), TypeFault>
    ensures { Works (tested e.now (context around.now) scope.old) result scope.new }
{
    let _condition = condition(alloc, around, scope, e)?;
    Ok(())
}

fn check_jump(around: &Around<'_>, at: u32) -> Result<(), TypeFault>
    ensures { Checks (jump at (context around.now).in_loop) result }
{
    if around.in_loop {
        Ok(())
    } else {
        Err(TypeFault::Broken {
            rule: Rule::Jump,
            at,
        })
    }
}

fn check_placeholder(around: &Around<'_>, at: u32) -> Result<(), TypeFault>
    ensures { Checks (placeholder at (context around.now).kind) result }
{
    match around.body {
        Body::Modifier => Ok(()),
        Body::Function(_) => Err(TypeFault::Broken {
            rule: Rule::Placeholder,
            at,
        }),
    }
}

// ---- `return`

fn returned_type(around: &Around<'_>) -> Option<ValueType>
    ensures { returned_type (context around.now).kind ≡ option_map OfType result }
{
    match around.body {
        Body::Function(ty) => ty,
        Body::Modifier => None,
    }
}

fn check_return(
    alloc: Global,
    around: &Around<'_>,
    scope: &Scope,
    at: u32,
    value: &Option<ExprTree>,
) -> Result<(), TypeFault>
    ensures { Checks (returned (setting_in (context around.now) scope.now) at (returned_type (context around.now).kind) value.now) result }
{
    match returned_type(around) {
        None => match value {
            None => Ok(()),
            Some(_) => Err(TypeFault::Broken {
                rule: Rule::Return,
                at,
            }),
        },
        Some(ty) => match value {
            None => Err(TypeFault::Broken {
                rule: Rule::Return,
                at,
            }),
            Some(e) => value_in(alloc, around, scope, Rule::Return, at, ty, e),
        },
    }
}

// ---- the head of a `for`

fn judge_optional_simple(
    alloc: Global,
    around: &Around<'_>,
    simple: &Option<Simple>,
    scope: &mut Scope,
) -> Result<(), TypeFault>
    ensures { Works (simple_or_nothing simple.now (context around.now) scope.old) result scope.new }
{
    match simple {
        None => Ok(()),
        Some(simple) => judge_simple(alloc, around, simple, scope),
    }
}

fn check_optional_condition(
    alloc: Global,
    around: &Around<'_>,
    condition: &Option<ExprTree>,
    scope: &mut Scope,
) -> Result<(), TypeFault>
    ensures { Works (tested_or_nothing condition.now (context around.now) scope.old) result scope.new }
{
    match condition {
        None => Ok(()),
        Some(e) => check_condition(alloc, around, e, scope),
    }
}

#[tactic(auto, using(sol_judged::proofs::Faults::faults), unfolding(crate::specs::Statements::for_head))]
fn judge_for_head(
    alloc: Global,
    around: &Around<'_>,
    start: &Option<Simple>,
    condition: &Option<ExprTree>,
    step: &Option<Simple>,
    scope: &mut Scope,
) -> Result<(), TypeFault>
    ensures { Works (for_head start.now condition.now step.now (context around.now) scope.old) result scope.new }
{
    judge_optional_simple(alloc, around, start, scope)?;
    check_optional_condition(alloc, around, condition, scope)?;
    judge_optional_simple(alloc, around, step, scope)
}

// ---- statements

/// What a statement does to the scope: Ok exactly where it has no fault, and else one of its faults.
#[cycle(statements)]
#[tactic(auto, using(sol_judged::proofs::Faults::faults, crate::proofs::Stating::stating))]
pub fn judge_statement(
    alloc: Global,
    around: &Around<'_>,
    s: &Stmt,
    scope: &mut Scope,
) -> Result<(), TypeFault>
    ensures { Works (statement s.now (context around.now) scope.old) result scope.new }
{
    match s {
        Stmt::Block { statements, .. } => judge_block(alloc, around, statements.as_slice(), scope),
        Stmt::Unchecked { statements, .. } => {
            judge_block(alloc, &unchecked(around), statements.as_slice(), scope)
        }
        Stmt::Simple { simple, .. } => judge_simple(alloc, around, simple, scope),
        Stmt::If {
            condition,
            chosen,
            otherwise,
            ..
        } => {
            check_condition(alloc, around, condition, scope)?;
            judge_statement(alloc, around, chosen.get(), scope)?;
            judge_otherwise(alloc, around, otherwise, scope)
        }
        Stmt::While {
            condition,
            body,
            ..
        } => {
            check_condition(alloc, around, condition, scope)?;
            judge_statement(alloc, &looping(around), body.get(), scope)
        }
        Stmt::DoWhile {
            body,
            condition,
            ..
        } => {
            judge_statement(alloc, &looping(around), body.get(), scope)?;
            check_condition(alloc, around, condition, scope)
        }
        Stmt::For {
            start,
            condition,
            step,
            body,
            ..
        } => {
            let kept = scope.visible.len();
            let from = scope.from;
            scope.from = kept;
            judge_for_head(alloc, around, start, condition, step, scope)?;
            judge_statement(alloc, &looping(around), body.get(), scope)?;
            close_to(alloc, kept, from, scope);
            Ok(())
        }
        Stmt::Break { at } => check_jump(around, *at),
        Stmt::Continue { at } => check_jump(around, *at),
        Stmt::Return { at, value } => check_return(alloc, around, scope, *at, value),
        Stmt::Placeholder { at } => check_placeholder(around, *at),
        Stmt::Emit {
            event,
            arguments,
            ..
        } => check_emit(alloc, around, scope, event, arguments),
        Stmt::RevertWith {
            error,
            arguments,
            ..
        } => check_revert(alloc, around, scope, error, arguments),
        Stmt::Revert { .. } => Ok(()),
        Stmt::Require { condition, .. } => check_condition(alloc, around, condition, scope),
        Stmt::Assert { condition, .. } => check_condition(alloc, around, condition, scope),
    }
}

// An `else`, if there is one.
#[cycle(statements)]
fn judge_otherwise(
    alloc: Global,
    around: &Around<'_>,
    otherwise: &Option<Boxed<Stmt>>,
    scope: &mut Scope,
) -> Result<(), TypeFault>
    ensures { Works (or_nothing (option_map statement otherwise.now) (context around.now) scope.old) result scope.new }
{
    match otherwise {
        None => Ok(()),
        Some(other) => judge_statement(alloc, around, other.get(), scope),
    }
}

/// The statements of a block, which is a scope of its own: Ok exactly where they have no fault, with the scope after it, and
/// else one of their faults.
#[cycle(statements)]
#[tactic(auto, using(crate::proofs::Stating::stops), unfolding(crate::specs::Statements::block))]
pub fn judge_block(
    alloc: Global,
    around: &Around<'_>,
    statements: &[Stmt],
    scope: &mut Scope,
) -> Result<(), TypeFault>
    ensures { Works (judge_block statements.now (context around.now) scope.old) result scope.new }
{
    let kept = scope.visible.len();
    let from = scope.from;
    scope.from = kept;
    for s in statements {
        judge_statement(alloc, around, s, scope)?;
    }
    close_to(alloc, kept, from, scope);
    Ok(())
}
