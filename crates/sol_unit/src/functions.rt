// Functions.

ghost use Rattle.std.specs.Prelude.{◌≡◌, IfOk};
ghost use Rattle.std.specs.List.{list_any};
ghost use Rattle.sol_declared.specs.Specifiers.{is_external};
ghost use Rattle.sol_judged.specs.Settings.{setting};
ghost use Rattle.sol_unit.specs.Added.{Adds};
ghost use Rattle.sol_unit.specs.Reads.{Reads};
ghost use Rattle.sol_unit.specs.Functions.{reads_alone, number_of_body, after_body, read_outer, added_function, function, constructor};

use crate::added::{next, number};
use crate::reads::{read_params, read_returned};
use crate::tables::Tables;
use chc_nums::NoMemory;
use sol_judged::{Function, Meaning, OuterFunction, Surroundings, TypeFault};
use sol_tree::{Block, Fun, FunSpecifier};
use std::alloc::Global;

fn is_external(fun: &Fun) -> bool
    ensures { result ≡ list_any is_external fun.now.specifiers }
{
    fun.specifiers
        .as_slice()
        .iter()
        .any(|mark| matches!(mark, FunSpecifier::External { .. }))
}

// Whether it is view or pure.
fn reads_alone(fun: &Fun) -> bool
    ensures { result ≡ list_any reads_alone fun.now.specifiers }
{
    fun.specifiers.as_slice().iter().any(|mark| matches!(
        mark,
        FunSpecifier::View { .. } | FunSpecifier::Pure { .. }
    ))
}

fn number_of_body(body: &Option<Block>, number: u32) -> Option<u32>
    ensures { result ≡ number_of_body body.now number }
{
    match body {
        None => None,
        Some(_) => Some(number),
    }
}

fn after_body(body: &Option<Block>, number: u32) -> Result<u32, NoMemory>
    ensures { IfOk result (λ n. n ≡ after_body body.now number) }
{
    match body {
        None => Ok(number),
        Some(_) => next(number),
    }
}

/// The parameters of a function and what it returns.
#[tactic(auto, using(crate::proofs::Reading::reads), unfolding(crate::specs::Functions::read_outer))]
pub fn read_outer(
    alloc: Global,
    w: &Surroundings<'_>,
    fun: &Fun,
) -> Result<OuterFunction, TypeFault>
    ensures { Reads (read_outer (setting w.now) fun.now) result }
{
    let params = read_params(alloc, w, fun.params.as_slice())?;
    let ret = read_returned(w, &fun.returns)?;
    Ok(OuterFunction {
        params,
        ret,
        is_view: reads_alone(fun),
    })
}

#[tactic(auto, unfolding(crate::specs::Functions::added_function))]
fn add_read_function(
    fun: &Fun,
    read: OuterFunction,
    tables: &mut Tables,
) -> Result<Meaning, NoMemory>
    ensures { Adds (added_function fun.now read tables.old) result tables.new }
{
    let function = number(tables.functions.len())?;
    let bodies = after_body(&fun.body, tables.bodies)?;
    let OuterFunction {
        params,
        ret,
        is_view,
    } = read;
    tables.functions.push(Function {
        params,
        ret,
        number: number_of_body(&fun.body, tables.bodies),
        is_external: is_external(fun),
        is_view,
    })?;
    tables.bodies = bodies;
    Ok(Meaning::Function(function))
}

/// A function.
#[tactic(auto, unfolding(crate::specs::Functions::function))]
pub fn add_function(
    alloc: Global,
    w: &Surroundings<'_>,
    fun: &Fun,
    tables: &mut Tables,
) -> Result<Meaning, NoMemory>
    ensures { Adds (function (setting w.now) fun.now tables.old) result tables.new }
{
    match read_outer(alloc, w, fun) {
        Ok(read) => add_read_function(fun, read, tables),
        Err(TypeFault::Broken { rule, at }) => Ok(Meaning::Faulty(rule, at)),
        Err(TypeFault::NoMemory) => Err(NoMemory),
    }
}

/// A constructor.
pub fn add_constructor(tables: &mut Tables) -> Result<Meaning, NoMemory>
    ensures { Adds (constructor tables.old) result tables.new }
{
    tables.bodies = next(tables.bodies)?;
    Ok(Meaning::Modifier(0))
}
