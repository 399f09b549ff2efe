// Whether every function of a linearization has a body.

ghost use Rattle.std.specs.Prelude.{◌≡◌, ℕ, List, [], ◌||◌, ◌&&◌, is_some, IfOk, OnOk};
ghost use Rattle.std.specs.List.{list_any};
ghost use Rattle.sol_tree.specs.declared.file.Unit as units;
ghost use Rattle.sol_names.specs.Names.{number_of};
ghost use Rattle.sol_names.specs.Units.{implemented, exposed, is_interface};
ghost use Rattle.sol_names.specs.Orders.{gives, is_abstract, is_missing, misses, misses_after};
ghost use Rattle.sol_names.specs.Supplied.{AreSupplied};

use crate::names::{Numbers, number_of, set_number};
use crate::units::{exposed, implemented, is_concrete, is_interface, is_private, members, unit_at};
use chc_nums::NoMemory;
use indexmap::IndexMap;
use sol_tree::{Member, Unit};
use std::alloc::Global;

fn add_functions<'a>(numbers: &mut Numbers<'a>, members: &'a [Member]) -> Result<(), NoMemory>
    ensures { OnOk result ((q : List ℕ) → is_some (number_of numbers.new q) ≡ (is_some (number_of numbers.old q) || list_any (gives implemented q) members.now)) }
{
    let mut rest = members;
    while let [member, more @ ..] = rest {
        if let Some(name) = implemented(member) {
            set_number(numbers, name, 0)?;
        }
        rest = more;
    }
    Ok(())
}

fn add_variables<'a>(numbers: &mut Numbers<'a>, members: &'a [Member]) -> Result<(), NoMemory>
    ensures { OnOk result ((q : List ℕ) → is_some (number_of numbers.new q) ≡ (is_some (number_of numbers.old q) || list_any (gives exposed q) members.now)) }
{
    let mut rest = members;
    while let [member, more @ ..] = rest {
        if let Some(name) = exposed(member) {
            set_number(numbers, name, 0)?;
        }
        rest = more;
    }
    Ok(())
}

fn is_supplied<'a>(
    functions: &Numbers<'a>,
    variables: &Numbers<'a>,
    unit: &'a Unit,
    name: &'a str,
) -> bool
    ensures { result ≡ (is_some (number_of functions.now name.now) || (is_interface unit.now && is_some (number_of variables.now name.now))) }
{
    number_of(functions, name).is_some()
        || (is_interface(unit) && number_of(variables, name).is_some())
}

fn is_missing<'a>(
    functions: &Numbers<'a>,
    variables: &Numbers<'a>,
    unit: &'a Unit,
    member: &'a Member,
) -> bool
    ensures { (us : List units.Unit) (before : List ℕ) → AreSupplied us before functions.now variables.now → result ≡ is_missing us before unit.now member.now }
{
    match member {
        Member::Fun { fun, .. } => {
            fun.body.is_none()
                && (is_private(fun)
                    || !is_supplied(functions, variables, unit, fun.name.name.as_str()))
        }
        _ => false,
    }
}

fn misses<'a>(functions: &Numbers<'a>, variables: &Numbers<'a>, unit: &'a Unit) -> bool
    ensures { (us : List units.Unit) (before : List ℕ) → AreSupplied us before functions.now variables.now → result ≡ misses us before unit.now }
{
    let mut rest = members(unit);
    while let [member, more @ ..] = rest {
        if is_missing(functions, variables, unit, member) {
            return true;
        }
        rest = more;
    }
    false
}

// Whether a unit of the order has a function that no unit before it supplies.
fn order_misses(alloc: Global, units: &[Unit], order: &[u32]) -> Result<bool, NoMemory>
    ensures { IfOk result (λ b. b ≡ misses_after units.now [] order.now) }
{
    let mut functions = IndexMap::new(alloc);
    let mut variables = IndexMap::new(alloc);
    let mut rest = order;
    while let [place, more @ ..] = rest {
        if let Some(unit) = unit_at(units, *place) {
            if misses(&functions, &variables, unit) {
                return Ok(true);
            }
            add_functions(&mut functions, members(unit))?;
            add_variables(&mut variables, members(unit))?;
        }
        rest = more;
    }
    Ok(false)
}

// Whether the unit at a place, with this linearization, can't be deployed.
pub fn is_abstract(
    alloc: Global,
    units: &[Unit],
    place: u32,
    order: &[u32],
) -> Result<bool, NoMemory>
    ensures { IfOk result (λ b. b ≡ is_abstract units.now place order.now) }
{
    match unit_at(units, place) {
        Some(unit) if is_concrete(unit) => order_misses(alloc, units, order),
        _ => Ok(true),
    }
}
