// The members of a linearization.

ghost use Rattle.std.specs.Prelude.{◌≡◌, map, reverse, [], IfOk, OnOk};
ghost use Rattle.sol_judged.specs.Listed.{listed};
ghost use Rattle.sol_judged.specs.Settings.{setting};
ghost use Rattle.sol_unit.specs.Added.{Adds};
ghost use Rattle.sol_unit.specs.Listing.{members_at};
ghost use Rattle.sol_unit.specs.Lineages.{names_of_unit, names_of_units, member_names, named, read_in, making, added_member, declared_member, declared_unit, declared_units, declared_lineage};

use crate::functions::{add_constructor, add_function};
use crate::listing::{list_member, members_at};
use crate::parameters::{add_error, add_event, add_modifier};
use crate::tables::Tables;
use crate::variables::add_variable;
use chc_nums::{List, NoMemory};
use sol_judged::{Declared, Meaning, Member as Entry, Members, Surroundings};
use sol_tree::{Member, Unit};
use std::alloc::Global;

// A linearization with the most base-like unit first.
fn base_first(alloc: Global, order: &[u32]) -> Result<Vec<u32>, NoMemory>
    ensures { IfOk result (λ v. v.items ≡ reverse order.now) }
{
    let mut places = Vec::from_slice(alloc, order)?;
    places.reverse();
    Ok(places)
}

// ---- names

fn list_names_of_unit<'a>(
    entries: &mut Vec<Entry<'a>>,
    unit: u32,
    members: &'a [Member],
) -> Result<(), NoMemory>
    ensures { OnOk result (map listed entries.new.items ≡ names_of_unit unit (map listed entries.old.items) members.now) }
{
    for member in members {
        list_member(entries, unit, member, Meaning::Modifier(0))?;
    }
    Ok(())
}

fn list_names<'a>(
    entries: &mut Vec<Entry<'a>>,
    units: &'a [Unit],
    places: &[u32],
) -> Result<(), NoMemory>
    ensures { OnOk result (map listed entries.new.items ≡ names_of_units units.now (map listed entries.old.items) places.now) }
{
    for place in places {
        list_names_of_unit(entries, *place, members_at(units, *place))?;
    }
    Ok(())
}

/// The members of a linearization by their names alone.
#[tactic(auto, unfolding(crate::specs::Lineages::member_names))]
pub fn member_names<'a>(
    alloc: Global,
    units: &'a [Unit],
    order: &[u32],
) -> Result<Members<'a>, NoMemory>
    ensures { IfOk result (λ m. m ≡ member_names units.now order.now) }
{
    let places = base_first(alloc, order)?;
    let mut entries = Vec::new(alloc);
    list_names(&mut entries, units, places.as_slice())?;
    Members::from_vec(alloc, entries)
}

/// No members.
pub fn no_members<'a>(alloc: Global) -> Result<Members<'a>, NoMemory>
    ensures { IfOk result (λ m. m ≡ []) }
{
    Members::from_vec(alloc, Vec::new(alloc))
}

/// Units and members by their names, and no more.
pub fn named<'a>(
    alloc: Global,
    units: Members<'a>,
    members: Members<'a>,
) -> Result<Declared<'a>, NoMemory>
    ensures { IfOk result (λ d. d ≡ named units.entry members.entry) }
{
    let interface_members = no_members(alloc)?;
    Ok(Declared {
        lineage: List::new(alloc),
        orders: List::new(alloc),
        units,
        members,
        interface_members,
        constants: List::new(alloc),
        maps: List::new(alloc),
        functions: List::new(alloc),
        outer_functions: List::new(alloc),
        modifiers: List::new(alloc),
        events: List::new(alloc),
        errors: List::new(alloc),
    })
}

/// The units among names.
pub fn units_of(names: Declared<'_>) -> Members<'_>
    ensures { result ≡ names.entry.units }
{
    let Declared { units, .. } = names;
    units
}

/// Where the declared types of a unit are read.
pub fn read_in<'a>(names: &'a Declared<'a>, unit: u32) -> Surroundings<'a>
    ensures { setting result ≡ read_in names.now unit }
{
    Surroundings {
        declared: names,
        unit,
        locals: &[],
        is_checked: true,
    }
}

// ---- meanings

#[tactic(auto, unfolding(crate::specs::Lineages::added_member))]
fn add_member(
    alloc: Global,
    w: &Surroundings<'_>,
    member: &Member,
    tables: &mut Tables,
) -> Result<Meaning, NoMemory>
    ensures { Adds (added_member (setting w.now) member.now tables.old) result tables.new }
{
    match member {
        Member::Var { var, .. } => add_variable(alloc, w, var, tables),
        Member::Fun { fun, .. } => add_function(alloc, w, fun, tables),
        Member::Constructor { .. } => add_constructor(tables),
        Member::Modifier { modifier, .. } => add_modifier(alloc, w, modifier, tables),
        Member::Event { event, .. } => add_event(alloc, w, event, tables),
        Member::Error { error, .. } => add_error(alloc, w, error, tables),
    }
}

#[tactic(auto, unfolding(crate::specs::Lineages::declared_member))]
fn declare_member<'a>(
    alloc: Global,
    names: &Declared<'_>,
    unit: u32,
    member: &'a Member,
    entries: &mut Vec<Entry<'a>>,
    tables: &mut Tables,
) -> Result<(), NoMemory>
    ensures { OnOk result (making entries.new.items tables.new ≡ declared_member names.now unit (making entries.old.items tables.old) member.now) }
{
    let w = read_in(names, unit);
    let meaning = add_member(alloc, &w, member, tables)?;
    list_member(entries, unit, member, meaning)
}

fn declare_unit<'a>(
    alloc: Global,
    names: &Declared<'_>,
    unit: u32,
    members: &'a [Member],
    entries: &mut Vec<Entry<'a>>,
    tables: &mut Tables,
) -> Result<(), NoMemory>
    ensures { OnOk result (making entries.new.items tables.new ≡ declared_unit names.now unit (making entries.old.items tables.old) members.now) }
{
    for member in members {
        declare_member(alloc, names, unit, member, entries, tables)?;
    }
    Ok(())
}

fn declare_units<'a>(
    alloc: Global,
    names: &Declared<'_>,
    units: &'a [Unit],
    places: &[u32],
    entries: &mut Vec<Entry<'a>>,
    tables: &mut Tables,
) -> Result<(), NoMemory>
    ensures { OnOk result (making entries.new.items tables.new ≡ declared_units names.now units.now (making entries.old.items tables.old) places.now) }
{
    for place in places {
        declare_unit(
            alloc,
            names,
            *place,
            members_at(units, *place),
            entries,
            tables,
        )?;
    }
    Ok(())
}

/// The members of a linearization with what they mean.
#[tactic(auto, unfolding(crate::specs::Lineages::declared_lineage))]
pub fn declare_lineage<'a>(
    alloc: Global,
    names: &Declared<'_>,
    units: &'a [Unit],
    order: &[u32],
    tables: &mut Tables,
) -> Result<Members<'a>, NoMemory>
    ensures { IfOk result (λ m. record { entries = m; tables = tables.new } ≡ declared_lineage names.now units.now order.now tables.old) }
{
    let places = base_first(alloc, order)?;
    let mut entries = Vec::new(alloc);
    declare_units(alloc, names, units, places.as_slice(), &mut entries, tables)?;
    Members::from_vec(alloc, entries)
}
