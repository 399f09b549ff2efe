// Modifiers, events and errors.

ghost use Rattle.std.specs.Prelude.{◌≡◌};
ghost use Rattle.sol_judged.specs.Settings.{setting};
ghost use Rattle.sol_unit.specs.Added.{Adds};
ghost use Rattle.sol_unit.specs.Parameters.{added_modifier, modifier, added_event, event, added_error, error};

use crate::added::number;
use crate::reads::{read_event_params, read_params};
use crate::tables::Tables;
use chc_nums::{List, NoMemory};
use sol_judged::{Meaning, Surroundings, TypeFault, ValueType};
use sol_tree::{Error, Event, Modifier};
use std::alloc::Global;

fn add_read_modifier(
    has_body: bool,
    params: List<ValueType>,
    tables: &mut Tables,
) -> Result<Meaning, NoMemory>
    ensures { Adds (added_modifier has_body params tables.old) result tables.new }
{
    let modifier = number(tables.modifiers.len())?;
    tables.modifiers.push(params)?;
    tables.has_body.push(has_body)?;
    Ok(Meaning::Modifier(modifier))
}

/// A modifier.
#[tactic(auto, unfolding(crate::specs::Parameters::modifier))]
pub fn add_modifier(
    alloc: Global,
    w: &Surroundings<'_>,
    written: &Modifier,
    tables: &mut Tables,
) -> Result<Meaning, NoMemory>
    ensures { Adds (modifier (setting w.now) written.now tables.old) result tables.new }
{
    match read_params(alloc, w, written.params.as_slice()) {
        Ok(params) => add_read_modifier(written.body.is_some(), params, tables),
        Err(TypeFault::Broken { rule, at }) => Ok(Meaning::Faulty(rule, at)),
        Err(TypeFault::NoMemory) => Err(NoMemory),
    }
}

fn add_read_event(params: List<ValueType>, tables: &mut Tables) -> Result<Meaning, NoMemory>
    ensures { Adds (added_event params tables.old) result tables.new }
{
    let event = number(tables.events.len())?;
    tables.events.push(params)?;
    Ok(Meaning::Event(event))
}

/// An event.
#[tactic(auto, unfolding(crate::specs::Parameters::event))]
pub fn add_event(
    alloc: Global,
    w: &Surroundings<'_>,
    written: &Event,
    tables: &mut Tables,
) -> Result<Meaning, NoMemory>
    ensures { Adds (event (setting w.now) written.now tables.old) result tables.new }
{
    match read_event_params(alloc, w, written.params.as_slice()) {
        Ok(params) => add_read_event(params, tables),
        Err(TypeFault::Broken { rule, at }) => Ok(Meaning::Faulty(rule, at)),
        Err(TypeFault::NoMemory) => Err(NoMemory),
    }
}

fn add_read_error(params: List<ValueType>, tables: &mut Tables) -> Result<Meaning, NoMemory>
    ensures { Adds (added_error params tables.old) result tables.new }
{
    let error = number(tables.errors.len())?;
    tables.errors.push(params)?;
    Ok(Meaning::Error(error))
}

/// An error.
#[tactic(auto, unfolding(crate::specs::Parameters::error))]
pub fn add_error(
    alloc: Global,
    w: &Surroundings<'_>,
    written: &Error,
    tables: &mut Tables,
) -> Result<Meaning, NoMemory>
    ensures { Adds (error (setting w.now) written.now tables.old) result tables.new }
{
    match read_params(alloc, w, written.params.as_slice()) {
        Ok(params) => add_read_error(params, tables),
        Err(TypeFault::Broken { rule, at }) => Ok(Meaning::Faulty(rule, at)),
        Err(TypeFault::NoMemory) => Err(NoMemory),
    }
}
