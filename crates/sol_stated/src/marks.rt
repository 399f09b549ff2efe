// What is named with arguments: events, errors and modifiers.

ghost use Rattle.std.specs.Prelude.{◌≡◌, Some, map, slice_get};
ghost use Rattle.sol_judged.specs.Settings.{setting};
ghost use Rattle.sol_judged.specs.declared.fault.TypeFault.TheVariants as fault;
ghost use Rattle.sol_judged.specs.declared.rules.Rule.TheVariants as rule;
ghost use Rattle.sol_judged.specs.Judged.{Judges};
ghost use Rattle.sol_judged.specs.Judgement.{placed};
ghost use Rattle.sol_stated.specs.Checks.{Checks, all_checks};
ghost use Rattle.sol_stated.specs.Contexts.{context, setting_in};
ghost use Rattle.sol_stated.specs.Raising.{shown, event_params, error_params, passed, emitted, reverted};
ghost use Rattle.sol_stated.specs.Marks.{arguments_of, has_body, modifier_params, used_as, modifier_use, own_use_as, own_use, function_mark, constructor_mark};

use crate::context::{Around, surroundings};
use crate::scope::Scope;
use sol_judged::{
    Declared, Meaning, Rule, Surroundings, TypeFault, ValueType, judge_all, meaning_of,
};
use sol_tree::{Arguments, Base, ConstructorSpecifier, ExprTree, FunSpecifier, Identifier};
use std::alloc::Global;

fn misnamed(at: u32) -> TypeFault
    ensures { result ≡ fault.Broken rule.Naming at }
{
    TypeFault::Broken {
        rule: Rule::Naming,
        at,
    }
}

#[tactic(auto, using(sol_judged::proofs::Faults::faults))]
fn check_passed(
    alloc: Global,
    w: &Surroundings<'_>,
    arguments: &[ExprTree],
    rule: Rule,
    at: u32,
    params: &[ValueType],
) -> Result<(), TypeFault>
    ensures { Checks (passed rule at (Some params.now) (map (placed (setting w.now)) arguments.now)) result }
{
    let _values = judge_all(alloc, w, arguments, rule, at, params)?;
    Ok(())
}

// ---- events and errors

#[tactic(auto, unfolding(crate::specs::Raising::event_params))]
fn event_params<'a>(
    declared: &'a Declared<'_>,
    at: u32,
    meaning: Option<Meaning>,
) -> Result<&'a [ValueType], TypeFault>
    ensures { Judges shown (event_params declared.now at meaning) result }
{
    match meaning {
        Some(Meaning::Event(event)) => match declared.events.get(event as usize) {
            None => Err(misnamed(at)),
            Some(params) => Ok(params.as_slice()),
        },
        Some(Meaning::Faulty(rule, place)) => Err(TypeFault::Broken { rule, at: place }),
        _ => Err(misnamed(at)),
    }
}

/// `emit` of an event with arguments.
#[tactic(auto, using(sol_judged::proofs::Faults::faults), unfolding(crate::specs::Raising::emitted))]
pub fn check_emit(
    alloc: Global,
    around: &Around<'_>,
    scope: &Scope,
    event: &Identifier,
    arguments: &Arguments,
) -> Result<(), TypeFault>
    ensures { Checks (emitted (setting_in (context around.now) scope.now) event.now arguments.now) result }
{
    let w = surroundings(around, scope);
    let meaning = meaning_of(&w, event.name.as_str());
    let params = event_params(around.declared, event.at, meaning)?;
    let values = arguments.values.as_slice();
    check_passed(alloc, &w, values, Rule::Arguments, arguments.at, params)
}

#[tactic(auto, unfolding(crate::specs::Raising::error_params))]
fn error_params<'a>(
    declared: &'a Declared<'_>,
    at: u32,
    meaning: Option<Meaning>,
) -> Result<&'a [ValueType], TypeFault>
    ensures { Judges shown (error_params declared.now at meaning) result }
{
    match meaning {
        Some(Meaning::Error(error)) => match declared.errors.get(error as usize) {
            None => Err(misnamed(at)),
            Some(params) => Ok(params.as_slice()),
        },
        Some(Meaning::Faulty(rule, place)) => Err(TypeFault::Broken { rule, at: place }),
        _ => Err(misnamed(at)),
    }
}

/// `revert` with an error and arguments.
#[tactic(auto, using(sol_judged::proofs::Faults::faults), unfolding(crate::specs::Raising::reverted))]
pub fn check_revert(
    alloc: Global,
    around: &Around<'_>,
    scope: &Scope,
    error: &Identifier,
    arguments: &Arguments,
) -> Result<(), TypeFault>
    ensures { Checks (reverted (setting_in (context around.now) scope.now) error.now arguments.now) result }
{
    let w = surroundings(around, scope);
    let meaning = meaning_of(&w, error.name.as_str());
    let params = error_params(around.declared, error.at, meaning)?;
    let values = arguments.values.as_slice();
    check_passed(alloc, &w, values, Rule::Arguments, arguments.at, params)
}

// ---- modifiers

fn arguments_of(arguments: &Option<Arguments>) -> &[ExprTree]
    ensures { result.now ≡ arguments_of arguments.now }
{
    match arguments {
        None => &[],
        Some(arguments) => arguments.values.as_slice(),
    }
}

fn has_body(around: &Around<'_>, modifier: u32) -> bool
    ensures { result ≡ has_body (slice_get (context around.now).has_body modifier) }
{
    match around.has_body.get(modifier as usize) {
        None => false,
        Some(has_body) => *has_body,
    }
}

#[tactic(auto, unfolding(crate::specs::Marks::modifier_params))]
fn modifier_params<'a>(
    around: &Around<'a>,
    at: u32,
    meaning: Option<Meaning>,
) -> Result<&'a [ValueType], TypeFault>
    ensures { Judges shown (modifier_params (context around.now) at meaning) result }
{
    match meaning {
        Some(Meaning::Modifier(modifier)) => {
            match around.declared.modifiers.get(modifier as usize) {
                None => Err(misnamed(at)),
                Some(params) => {
                    if has_body(around, modifier) {
                        Ok(params.as_slice())
                    } else {
                        Err(TypeFault::Broken {
                            rule: Rule::Placeholder,
                            at,
                        })
                    }
                }
            }
        }
        Some(Meaning::Faulty(rule, place)) => Err(TypeFault::Broken { rule, at: place }),
        _ => Err(misnamed(at)),
    }
}

#[tactic(auto, using(sol_judged::proofs::Faults::faults), unfolding(crate::specs::Marks::used_as))]
fn check_used_as(
    alloc: Global,
    around: &Around<'_>,
    w: &Surroundings<'_>,
    base: &Base,
    meaning: Option<Meaning>,
) -> Result<(), TypeFault>
    ensures { Checks (used_as (context around.now) (setting w.now) base.now meaning) result }
{
    let at = base.name.at;
    let params = modifier_params(around, at, meaning)?;
    let values = arguments_of(&base.arguments);
    check_passed(alloc, w, values, Rule::ModifierUse, at, params)
}

// A modifier that a function uses.
fn check_use(
    alloc: Global,
    around: &Around<'_>,
    scope: &Scope,
    base: &Base,
) -> Result<(), TypeFault>
    ensures { Checks (modifier_use (context around.now) (setting_in (context around.now) scope.now) base.now) result }
{
    let w = surroundings(around, scope);
    let meaning = meaning_of(&w, base.name.name.as_str());
    check_used_as(alloc, around, &w, base, meaning)
}

// A modifier that a constructor uses, or a base.
fn check_own_use(
    alloc: Global,
    around: &Around<'_>,
    scope: &Scope,
    base: &Base,
) -> Result<(), TypeFault>
    ensures { Checks (own_use (context around.now) (setting_in (context around.now) scope.now) base.now) result }
{
    let w = surroundings(around, scope);
    let meaning = meaning_of(&w, base.name.name.as_str());
    match meaning {
        Some(Meaning::Contract(_)) => Ok(()),
        Some(Meaning::Interface(_)) => Ok(()),
        _ => check_used_as(alloc, around, &w, base, meaning),
    }
}

fn check_function_mark(
    alloc: Global,
    around: &Around<'_>,
    scope: &Scope,
    mark: &FunSpecifier,
) -> Result<(), TypeFault>
    ensures { Checks (function_mark (context around.now) (setting_in (context around.now) scope.now) mark.now) result }
{
    match mark {
        FunSpecifier::Base { base, .. } => check_use(alloc, around, scope, base),
        _ => Ok(()),
    }
}

/// The modifiers that a function uses.
#[tactic(auto, using(crate::proofs::Turns::checks))]
pub fn check_function_marks(
    alloc: Global,
    around: &Around<'_>,
    scope: &Scope,
    marks: &[FunSpecifier],
) -> Result<(), TypeFault>
    ensures { Checks (all_checks (map (function_mark (context around.now) (setting_in (context around.now) scope.now)) marks.now)) result }
{
    for mark in marks {
        check_function_mark(alloc, around, scope, mark)?;
    }
    Ok(())
}

fn check_constructor_mark(
    alloc: Global,
    around: &Around<'_>,
    scope: &Scope,
    mark: &ConstructorSpecifier,
) -> Result<(), TypeFault>
    ensures { Checks (constructor_mark (context around.now) (setting_in (context around.now) scope.now) mark.now) result }
{
    match mark {
        ConstructorSpecifier::Base { base, .. } => check_own_use(alloc, around, scope, base),
        _ => Ok(()),
    }
}

/// The modifiers that a constructor uses. Its bases are judged elsewhere.
#[tactic(auto, using(crate::proofs::Turns::checks))]
pub fn check_constructor_marks(
    alloc: Global,
    around: &Around<'_>,
    scope: &Scope,
    marks: &[ConstructorSpecifier],
) -> Result<(), TypeFault>
    ensures { Checks (all_checks (map (constructor_mark (context around.now) (setting_in (context around.now) scope.now)) marks.now)) result }
{
    for mark in marks {
        check_constructor_mark(alloc, around, scope, mark)?;
    }
    Ok(())
}
