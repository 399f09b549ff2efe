// What a file declares.

ghost use Rattle.std.specs.Prelude.{◌≡◌, [], map, OnOk, IfOk};
ghost use Rattle.sol_judged.specs.Listed.{listed};
ghost use Rattle.sol_judged.specs.Settings.{setting};
ghost use Rattle.sol_names.specs.Units.{unit_name};
ghost use Rattle.sol_unit.specs.Added.{Adds};
ghost use Rattle.sol_unit.specs.Lineages.{making, read_in};
ghost use Rattle.sol_unit.specs.Files.{with_unit, unit_alone, unit_names, file_names, no_tables, added_unit, file_unit, file_units};

use crate::added::next;
use crate::lineages::{named, no_members, read_in};
use crate::parameters::{add_error, add_event};
use crate::tables::Tables;
use chc_nums::{List, NoMemory};
use sol_judged::{Declared, Meaning, Member as Entry, Members, Surroundings};
use sol_tree::Unit;
use std::alloc::Global;

// ---- units

fn text_of(unit: &Unit) -> &str
    ensures { result.now ≡ (unit_name unit.now).name }
{
    match unit {
        Unit::Contract { name, .. } => name.name.as_str(),
        Unit::Interface { name, .. } => name.name.as_str(),
        Unit::Event { event, .. } => event.name.name.as_str(),
        Unit::Error { error, .. } => error.name.name.as_str(),
    }
}

#[tactic(auto, unfolding(crate::specs::Files::with_unit))]
fn list_unit<'a>(
    entries: &mut Vec<Entry<'a>>,
    place: u32,
    unit: &'a Unit,
    meaning: Meaning,
) -> Result<(), NoMemory>
    ensures { OnOk result (map listed entries.new.items ≡ with_unit place unit.now meaning (map listed entries.old.items)) }
{
    entries.push(Entry {
        name: text_of(unit),
        unit: place,
        is_private: false,
        meaning,
    })?;
    Ok(())
}

fn unit_alone(place: u32, unit: &Unit) -> Meaning
    ensures { result ≡ unit_alone place unit.now }
{
    match unit {
        Unit::Contract { .. } => Meaning::Contract(place),
        Unit::Interface { .. } => Meaning::Interface(place),
        Unit::Event { .. } => Meaning::Modifier(0),
        Unit::Error { .. } => Meaning::Modifier(0),
    }
}

fn unit_names<'a>(alloc: Global, units: &'a [Unit]) -> Result<Members<'a>, NoMemory>
    ensures { IfOk result (λ m. m ≡ unit_names 0 [] units.now) }
{
    let mut entries = Vec::new(alloc);
    let mut place: u32 = 0;
    for unit in units {
        list_unit(&mut entries, place, unit, unit_alone(place, unit))?;
        place = next(place)?;
    }
    Members::from_vec(alloc, entries)
}

/// The units of a file by their names.
pub fn file_names<'a>(alloc: Global, units: &'a [Unit]) -> Result<Declared<'a>, NoMemory>
    ensures { IfOk result (λ d. d ≡ file_names units.now) }
{
    let names = unit_names(alloc, units)?;
    let members = no_members(alloc)?;
    named(alloc, names, members)
}

// ---- events and errors of the file

/// Tables of nothing.
pub fn no_tables(alloc: Global) -> Tables
    ensures { result ≡ no_tables }
{
    Tables {
        scalars: 0,
        arrays: 0,
        bodies: 0,
        constants: List::new(alloc),
        maps: List::new(alloc),
        functions: List::new(alloc),
        modifiers: List::new(alloc),
        has_body: List::new(alloc),
        events: List::new(alloc),
        errors: List::new(alloc),
    }
}

#[tactic(auto, unfolding(crate::specs::Files::added_unit))]
fn add_unit(
    alloc: Global,
    w: &Surroundings<'_>,
    place: u32,
    unit: &Unit,
    tables: &mut Tables,
) -> Result<Meaning, NoMemory>
    ensures { Adds (added_unit (setting w.now) place unit.now tables.old) result tables.new }
{
    match unit {
        Unit::Contract { .. } => Ok(Meaning::Contract(place)),
        Unit::Interface { .. } => Ok(Meaning::Interface(place)),
        Unit::Event { event, .. } => add_event(alloc, w, event, tables),
        Unit::Error { error, .. } => add_error(alloc, w, error, tables),
    }
}

#[tactic(auto, unfolding(crate::specs::Files::file_unit))]
fn declare_file_unit<'a>(
    alloc: Global,
    names: &Declared<'_>,
    place: u32,
    unit: &'a Unit,
    entries: &mut Vec<Entry<'a>>,
    tables: &mut Tables,
) -> Result<(), NoMemory>
    ensures { OnOk result (making entries.new.items tables.new ≡ file_unit names.now place (making entries.old.items tables.old) unit.now) }
{
    let w = read_in(names, place);
    let meaning = add_unit(alloc, &w, place, unit, tables)?;
    list_unit(entries, place, unit, meaning)
}

fn declare_file_units<'a>(
    alloc: Global,
    names: &Declared<'_>,
    units: &'a [Unit],
    entries: &mut Vec<Entry<'a>>,
    tables: &mut Tables,
) -> Result<(), NoMemory>
    ensures { OnOk result (making entries.new.items tables.new ≡ file_units names.now 0 (making entries.old.items tables.old) units.now) }
{
    let mut place: u32 = 0;
    for unit in units {
        declare_file_unit(alloc, names, place, unit, entries, tables)?;
        place = next(place)?;
    }
    Ok(())
}

/// The units of a file by their names, with its events and errors.
pub fn declare_file<'a>(
    alloc: Global,
    names: &Declared<'_>,
    units: &'a [Unit],
    tables: &mut Tables,
) -> Result<Members<'a>, NoMemory>
    ensures { IfOk result (λ m. record { entries = m; tables = tables.new } ≡ file_units names.now 0 (record { entries = []; tables = tables.old }) units.now) }
{
    let mut entries = Vec::new(alloc);
    declare_file_units(alloc, names, units, &mut entries, tables)?;
    Members::from_vec(alloc, entries)
}
