// The tables of a linearization.

ghost use Rattle.std.specs.Prelude.{◌≡◌, [], take, IfOk};
ghost use Rattle.sol_unit.specs.Files.{file_names, no_tables};
ghost use Rattle.sol_unit.specs.Scenes.{shared_in, scene_of, scene_with, shared_of};

use crate::files::{declare_file, file_names, no_tables};
use crate::lineages::{declare_lineage, member_names, named, units_of};
use crate::outers::declare_outer_units;
use crate::tables::Tables;
use chc_nums::{List, NoMemory};
use sol_judged::{Declared, Members, OuterFunction, ValueType};
use sol_tree::Unit;
use std::alloc::Global;

/// What all linearizations of a file share: the linearization of each unit, itself first, the units by their names, the functions of
/// interfaces, and the parameters of the events and errors of the file.
#[derive(Drop)]
pub struct Shared<'a> {
    pub orders: List<List<u32>>,
    pub units: Members<'a>,
    pub interface_members: Members<'a>,
    pub outer_functions: List<OuterFunction>,
    pub events: List<List<ValueType>>,
    pub errors: List<List<ValueType>>,
}

/// What the members of a linearization are judged in: what is declared, and which of the modifiers have a body.
#[derive(Drop)]
pub struct Scene<'a> {
    pub declared: Declared<'a>,
    pub has_body: List<bool>,
}

fn shared_among<'a>(
    alloc: Global,
    names: &Declared<'_>,
    units: &'a [Unit],
    orders: List<List<u32>>,
) -> Result<Shared<'a>, NoMemory>
    requires names { names.now ≡ file_names units.now }
    ensures { IfOk result (λ s. s ≡ shared_in units.now orders) }
{
    let mut tables = no_tables(alloc);
    let named = declare_file(alloc, names, units, &mut tables)?;
    let mut entries = Vec::new(alloc);
    let mut outer_functions = List::new(alloc);
    let of_orders = orders.as_slice();
    let named = declare_outer_units(
        alloc,
        named,
        units,
        of_orders,
        &mut entries,
        &mut outer_functions,
    )?;
    let interface_members = Members::from_vec(alloc, entries)?;
    let Tables { events, errors, .. } = tables;
    Ok(Shared {
        orders,
        units: named,
        interface_members,
        outer_functions,
        events,
        errors,
    })
}

/// What all linearizations of a file share, whose units have these linearizations.
pub fn shared_in<'a>(
    alloc: Global,
    units: &'a [Unit],
    orders: List<List<u32>>,
) -> Result<Shared<'a>, NoMemory>
    ensures { IfOk result (λ s. s ≡ shared_in units.now orders) }
{
    let names = file_names(alloc, units)?;
    shared_among(alloc, &names, units, orders)
}

fn scene_of<'a>(
    orders: List<List<u32>>,
    units: Members<'a>,
    interface_members: Members<'a>,
    outer_functions: List<OuterFunction>,
    lineage: List<u32>,
    members: Members<'a>,
    tables: Tables,
) -> Scene<'a>
    ensures { result ≡ scene_of (record { orders = orders; units = units.entry; interface_members = interface_members.entry; outer_functions = outer_functions; events = []; errors = [] }) lineage (record { entries = members.entry; tables = tables }) }
{
    let Tables {
        constants,
        maps,
        functions,
        modifiers,
        has_body,
        events,
        errors,
        ..
    } = tables;
    Scene {
        declared: Declared {
            lineage,
            orders,
            units,
            members,
            interface_members,
            constants,
            maps,
            functions,
            outer_functions,
            modifiers,
            events,
            errors,
        },
        has_body,
    }
}

fn file_tables(
    alloc: Global,
    events: List<List<ValueType>>,
    errors: List<List<ValueType>>,
) -> Tables
    ensures { result ≡ record no_tables { events = events; errors = errors } }
{
    let mut tables = no_tables(alloc);
    tables.events = events;
    tables.errors = errors;
    tables
}

/// The tables of a linearization, with what is shared.
pub fn scene_with<'a>(
    alloc: Global,
    units: &'a [Unit],
    shared: Shared<'a>,
    lineage: List<u32>,
) -> Result<Scene<'a>, NoMemory>
    ensures { IfOk result (λ s. s ≡ scene_with units.now shared.entry lineage) }
{
    let Shared {
        orders,
        units: unit_names,
        interface_members,
        outer_functions,
        events,
        errors,
    } = shared;
    let own = member_names(alloc, units, lineage.as_slice())?;
    let names = named(alloc, unit_names, own)?;
    let mut tables = file_tables(alloc, events, errors);
    let members = declare_lineage(alloc, &names, units, lineage.as_slice(), &mut tables)?;
    Ok(scene_of(
        orders,
        units_of(names),
        interface_members,
        outer_functions,
        lineage,
        members,
        tables,
    ))
}

// The first ones of a list.
fn first(list: List<List<ValueType>>, count: usize) -> List<List<ValueType>>
    ensures { result ≡ take count list }
{
    let mut held = list.into_vec();
    held.truncate(count);
    List::from_vec(held)
}

/// What is shared, from the tables of a linearization, with so many events and errors of the file.
pub fn shared_of(scene: Scene<'_>, events: usize, errors: usize) -> Shared<'_>
    ensures { result ≡ shared_of scene.entry events errors }
{
    let Scene {
        declared,
        has_body: _,
    } = scene;
    let Declared {
        orders,
        units,
        interface_members,
        outer_functions,
        events: all_events,
        errors: all_errors,
        ..
    } = declared;
    Shared {
        orders,
        units,
        interface_members,
        outer_functions,
        events: first(all_events, events),
        errors: first(all_errors, errors),
    }
}
