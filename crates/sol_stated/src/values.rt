// Conditions and whole values.

ghost use Rattle.std.specs.Prelude.{◌≡◌};
ghost use Rattle.sol_tree.specs.Places.{place_of};
ghost use Rattle.sol_judged.specs.Judged.{Judges};
ghost use Rattle.sol_judged.specs.Found.{Known};
ghost use Rattle.sol_stated.specs.Checks.{Checks};
ghost use Rattle.sol_stated.specs.Contexts.{OfType, context, setting_in};
ghost use Rattle.sol_stated.specs.Values.{condition, call_of_type, whole_value, value_in};

use crate::context::{Around, judge_in};
use crate::scope::Scope;
use sol_core::Expr;
use sol_judged::{Found, Rule, TypeFault, ValueType, call_type, truth, wanted, widens};
use sol_tree::ExprTree;
use sqlite_items::Boxed;
use std::alloc::Global;

/// A condition, which is `bool`.
#[tactic(auto, using(sol_judged::proofs::Faults::faults), unfolding(crate::specs::Values::condition))]
pub fn condition(
    alloc: Global,
    around: &Around<'_>,
    scope: &Scope,
    e: &ExprTree,
) -> Result<Boxed<Expr>, TypeFault>
    ensures { Judges (λ x. x) (condition (setting_in (context around.now) scope.now) e.now) result }
{
    let found = judge_in(alloc, around, scope, e)?;
    truth(alloc, e.at(), e.at(), found)
}

fn call_of_type(
    rule: Rule,
    at: u32,
    ty: ValueType,
    opened: u32,
    returned: Option<ValueType>,
) -> Result<(), TypeFault>
    ensures { Checks (call_of_type rule at ty opened returned) result }
{
    match returned {
        None => Err(TypeFault::Broken {
            rule: Rule::CallPlace,
            at: opened,
        }),
        Some(r) => {
            if widens(r, ty) {
                Ok(())
            } else {
                Err(TypeFault::Broken { rule, at })
            }
        }
    }
}

/// A whole value of a type; else a rule is broken at a place.
#[tactic(auto, using(sol_judged::proofs::Faults::faults), unfolding(crate::specs::Values::whole_value))]
pub fn whole_value(
    alloc: Global,
    rule: Rule,
    at: u32,
    ty: ValueType,
    first: u32,
    found: Found,
) -> Result<(), TypeFault>
    ensures { Checks (whole_value rule at ty first (Known found)) result }
{
    if let Found::Call(opened, call) = found {
        return call_of_type(rule, at, ty, opened, call_type(call.get()));
    }
    let _value = wanted(alloc, rule, at, ty, first, found)?;
    Ok(())
}

/// An expression as a whole value of a type; else a rule is broken at a place.
#[tactic(auto, using(sol_judged::proofs::Faults::faults), unfolding(crate::specs::Values::value_in))]
pub fn value_in(
    alloc: Global,
    around: &Around<'_>,
    scope: &Scope,
    rule: Rule,
    at: u32,
    ty: ValueType,
    e: &ExprTree,
) -> Result<(), TypeFault>
    ensures { Checks (value_in (setting_in (context around.now) scope.now) rule at (OfType ty) e.now) result }
{
    let found = judge_in(alloc, around, scope, e)?;
    whole_value(alloc, rule, at, ty, e.at(), found)
}
