// Where statements stand.

ghost use Rattle.std.specs.Prelude.{◌≡◌};
ghost use Rattle.sol_judged.specs.Settings.{setting};
ghost use Rattle.sol_judged.specs.Judged.{Judges};
ghost use Rattle.sol_judged.specs.Found.{Known};
ghost use Rattle.sol_judged.specs.Judgement.{judge};
ghost use Rattle.sol_stated.specs.Contexts.{context, setting_in, bare, unchecked, looping};

use crate::scope::Scope;
use sol_judged::{Declared, Found, Surroundings, TypeFault, ValueType, judge};
use sol_tree::ExprTree;
use std::alloc::Global;

/// What a body belongs to.
#[derive(Clone, Copy, Debug)]
pub enum Body {
    /// A function, with the type that it returns; or a constructor, which returns none.
    Function(Option<ValueType>),
    /// A modifier, in which `_` stands for what it wraps.
    Modifier,
}

/// What is around a statement: what is declared, which of the modifiers have a body, the place of the unit among those of the
/// file, whether arithmetic is checked, whether a loop is around, and what the body belongs to.
#[derive(Clone, Copy)]
pub struct Around<'a> {
    pub declared: &'a Declared<'a>,
    pub has_body: &'a [bool],
    pub unit: u32,
    pub is_checked: bool,
    pub in_loop: bool,
    pub body: Body,
}

/// The same in an `unchecked` block.
pub fn unchecked<'a>(around: &Around<'a>) -> Around<'a>
    ensures { context result ≡ unchecked (context around.now) }
{
    Around {
        declared: around.declared,
        has_body: around.has_body,
        unit: around.unit,
        is_checked: false,
        in_loop: around.in_loop,
        body: around.body,
    }
}

/// The same in a loop.
pub fn looping<'a>(around: &Around<'a>) -> Around<'a>
    ensures { context result ≡ looping (context around.now) }
{
    Around {
        declared: around.declared,
        has_body: around.has_body,
        unit: around.unit,
        is_checked: around.is_checked,
        in_loop: true,
        body: around.body,
    }
}

/// Where an expression stands, with the locals of a scope.
pub fn surroundings<'a>(around: &Around<'a>, scope: &'a Scope) -> Surroundings<'a>
    ensures { setting result ≡ setting_in (context around.now) scope.now }
{
    Surroundings {
        declared: around.declared,
        unit: around.unit,
        locals: scope.visible.as_slice(),
        is_checked: around.is_checked,
    }
}

/// The same without locals.
pub fn without_locals<'a>(around: &Around<'a>) -> Surroundings<'a>
    ensures { setting result ≡ bare (context around.now) }
{
    Surroundings {
        declared: around.declared,
        unit: around.unit,
        locals: &[],
        is_checked: around.is_checked,
    }
}

/// What an expression is in a scope.
pub fn judge_in(
    alloc: Global,
    around: &Around<'_>,
    scope: &Scope,
    e: &ExprTree,
) -> Result<Found, TypeFault>
    ensures { Judges Known (judge (setting_in (context around.now) scope.now) e.now) result }
{
    let w = surroundings(around, scope);
    judge(alloc, &w, e)
}
