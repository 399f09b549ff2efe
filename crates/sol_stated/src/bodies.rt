// Functions, constructors and modifiers.

ghost use Rattle.std.specs.Prelude.{◌≡◌, Some};
ghost use Rattle.std.specs.Option.{option_map};
ghost use Rattle.sol_stated.specs.Checks.{Checks};
ghost use Rattle.sol_stated.specs.Contexts.{OfType, context, kind_of, with_kind};
ghost use Rattle.sol_stated.specs.Bodies.{block_body, body, function_in, function_returning, judge_function, constructor_in, judge_constructor, judge_modifier};

use crate::context::{Around, Body};
use crate::marks::{check_constructor_marks, check_function_marks};
use crate::params::{declare_param, judge_params, param_type};
use crate::scope::Scope;
use crate::statements::judge_block;
use sol_judged::{TypeFault, ValueType};
use sol_tree::{Block, Constructor, Fun, Modifier, Param};
use std::alloc::Global;

fn of_body<'a>(around: &Around<'a>, body: Body) -> Around<'a>
    ensures { context result ≡ with_kind (kind_of body) (context around.now) }
{
    Around {
        declared: around.declared,
        has_body: around.has_body,
        unit: around.unit,
        is_checked: around.is_checked,
        in_loop: around.in_loop,
        body,
    }
}

#[tactic(auto, using(sol_judged::proofs::Faults::faults), unfolding(crate::specs::Bodies::block_body))]
fn check_block(
    alloc: Global,
    around: &Around<'_>,
    body: Body,
    block: &Block,
    mut scope: Scope,
) -> Result<(), TypeFault>
    ensures { Checks (block_body (kind_of body) block.now (context around.now) scope) result }
{
    judge_block(
        alloc,
        &of_body(around, body),
        block.statements.as_slice(),
        &mut scope,
    )?;
    Ok(())
}

fn check_body(
    alloc: Global,
    around: &Around<'_>,
    kind: Body,
    block: &Option<Block>,
    scope: Scope,
) -> Result<(), TypeFault>
    ensures { Checks (body (kind_of kind) block.now (context around.now) scope) result }
{
    match block {
        None => Ok(()),
        Some(block) => check_block(alloc, around, kind, block, scope),
    }
}

#[tactic(auto, using(sol_judged::proofs::Faults::faults))]
fn check_function_in(
    alloc: Global,
    around: &Around<'_>,
    fun: &Fun,
    returned: Option<ValueType>,
    scope: Scope,
) -> Result<(), TypeFault>
    ensures { Checks (function_in (context around.now) fun.now (option_map OfType returned) scope) result }
{
    check_function_marks(alloc, around, &scope, fun.specifiers.as_slice())?;
    check_body(alloc, around, Body::Function(returned), &fun.body, scope)
}

#[tactic(auto, using(sol_judged::proofs::Faults::faults))]
fn check_function_with(
    alloc: Global,
    around: &Around<'_>,
    fun: &Fun,
    returned: &Param,
    mut scope: Scope,
) -> Result<(), TypeFault>
    ensures { Checks (function_returning (context around.now) fun.now (Some returned.now) scope) result }
{
    let ty = param_type(around, returned)?;
    declare_param(alloc, ty, &returned.name, &mut scope)?;
    check_function_in(alloc, around, fun, Some(ty), scope)
}

fn check_function_returning(
    alloc: Global,
    around: &Around<'_>,
    fun: &Fun,
    scope: Scope,
) -> Result<(), TypeFault>
    ensures { Checks (function_returning (context around.now) fun.now fun.now.returns scope) result }
{
    match &fun.returns {
        None => check_function_in(alloc, around, fun, None, scope),
        Some(returned) => check_function_with(alloc, around, fun, returned, scope),
    }
}

/// A function: its parameters and what it returns, the modifiers that it uses, and its body, if there is one. What the body
/// belongs to is the function, whatever stands in `around`.
#[tactic(auto, using(sol_judged::proofs::Faults::faults), unfolding(crate::specs::Bodies::judge_function))]
pub fn judge_function(alloc: Global, around: &Around<'_>, fun: &Fun) -> Result<(), TypeFault>
    ensures { Checks (judge_function (context around.now) fun.now) result }
{
    let mut scope = Scope::new(alloc);
    judge_params(alloc, around, fun.params.as_slice(), &mut scope)?;
    check_function_returning(alloc, around, fun, scope)
}

#[tactic(auto, using(sol_judged::proofs::Faults::faults))]
fn check_constructor_in(
    alloc: Global,
    around: &Around<'_>,
    constructor: &Constructor,
    scope: Scope,
) -> Result<(), TypeFault>
    ensures { Checks (constructor_in (context around.now) constructor.now scope) result }
{
    check_constructor_marks(alloc, around, &scope, constructor.specifiers.as_slice())?;
    check_block(
        alloc,
        around,
        Body::Function(None),
        &constructor.body,
        scope,
    )
}

/// A constructor: its parameters, the modifiers that it uses, and its body. Its bases are judged elsewhere.
#[tactic(auto, using(sol_judged::proofs::Faults::faults), unfolding(crate::specs::Bodies::judge_constructor))]
pub fn judge_constructor(
    alloc: Global,
    around: &Around<'_>,
    constructor: &Constructor,
) -> Result<(), TypeFault>
    ensures { Checks (judge_constructor (context around.now) constructor.now) result }
{
    let mut scope = Scope::new(alloc);
    judge_params(alloc, around, constructor.params.as_slice(), &mut scope)?;
    check_constructor_in(alloc, around, constructor, scope)
}

/// A modifier: its parameters, and its body, if there is one.
#[tactic(auto, using(sol_judged::proofs::Faults::faults), unfolding(crate::specs::Bodies::judge_modifier))]
pub fn judge_modifier(
    alloc: Global,
    around: &Around<'_>,
    modifier: &Modifier,
) -> Result<(), TypeFault>
    ensures { Checks (judge_modifier (context around.now) modifier.now) result }
{
    let mut scope = Scope::new(alloc);
    judge_params(alloc, around, modifier.params.as_slice(), &mut scope)?;
    check_body(alloc, around, Body::Modifier, &modifier.body, scope)
}
