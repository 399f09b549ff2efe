// The functions of interfaces.

ghost use Rattle.std.specs.Prelude.{◌≡◌, OnOk, IfOk};
ghost use Rattle.sol_judged.specs.Settings.{setting};
ghost use Rattle.sol_unit.specs.Added.{Adds};
ghost use Rattle.sol_unit.specs.Lineages.{making, member_names, named, read_in};
ghost use Rattle.sol_unit.specs.Outers.{added_outer, outer, outer_member, outer_members, order_at, outer_unit, outer_units};

use crate::added::{next, number};
use crate::functions::read_outer;
use crate::lineages::{member_names, named, read_in, units_of};
use crate::listing::list_member;
use chc_nums::{List, NoMemory};
use sol_judged::{
    Declared, Meaning, Member as Entry, Members, OuterFunction, Surroundings, TypeFault,
};
use sol_tree::{Fun, Member, Unit};
use std::alloc::Global;

fn add_read_outer(
    read: OuterFunction,
    functions: &mut List<OuterFunction>,
) -> Result<Meaning, NoMemory>
    ensures { Adds (added_outer read functions.old) result functions.new }
{
    let function = number(functions.len())?;
    functions.push(read)?;
    Ok(Meaning::Outer(function))
}

#[tactic(auto, unfolding(crate::specs::Outers::outer))]
fn add_outer(
    alloc: Global,
    w: &Surroundings<'_>,
    fun: &Fun,
    functions: &mut List<OuterFunction>,
) -> Result<Meaning, NoMemory>
    ensures { Adds (outer (setting w.now) fun.now functions.old) result functions.new }
{
    match read_outer(alloc, w, fun) {
        Ok(read) => add_read_outer(read, functions),
        Err(TypeFault::Broken { rule, at }) => Ok(Meaning::Faulty(rule, at)),
        Err(TypeFault::NoMemory) => Err(NoMemory),
    }
}

#[tactic(auto, unfolding(crate::specs::Outers::outer_member))]
fn declare_outer<'a>(
    alloc: Global,
    w: &Surroundings<'_>,
    unit: u32,
    member: &'a Member,
    entries: &mut Vec<Entry<'a>>,
    functions: &mut List<OuterFunction>,
) -> Result<(), NoMemory>
    ensures { OnOk result (making entries.new.items functions.new ≡ outer_member (setting w.now) unit (making entries.old.items functions.old) member.now) }
{
    match member {
        Member::Fun { fun, .. } => {
            let meaning = add_outer(alloc, w, fun, functions)?;
            list_member(entries, unit, member, meaning)
        }
        _ => Ok(()),
    }
}

fn declare_outers<'a>(
    alloc: Global,
    names: &Declared<'_>,
    unit: u32,
    members: &'a [Member],
    entries: &mut Vec<Entry<'a>>,
    functions: &mut List<OuterFunction>,
) -> Result<(), NoMemory>
    ensures { OnOk result (making entries.new.items functions.new ≡ outer_members (read_in names.now unit) unit (making entries.old.items functions.old) members.now) }
{
    let w = read_in(names, unit);
    for member in members {
        declare_outer(alloc, &w, unit, member, entries, functions)?;
    }
    Ok(())
}

/// The linearization of the unit at a place.
pub fn order_at(orders: &[List<u32>], place: u32) -> &[u32]
    ensures { result.now ≡ order_at orders.now place }
{
    match orders.get(place as usize) {
        None => &[],
        Some(order) => order.as_slice(),
    }
}

// The functions of an interface, by the names of a file's units, which come back.
fn declare_interface<'a>(
    alloc: Global,
    names: Members<'a>,
    units: &'a [Unit],
    order: &[u32],
    place: u32,
    members: &'a [Member],
    entries: &mut Vec<Entry<'a>>,
    functions: &mut List<OuterFunction>,
) -> Result<Members<'a>, NoMemory>
    ensures made { OnOk result (making entries.new.items functions.new ≡ outer_members (read_in (named names.entry (member_names units.now order.now)) place) place (making entries.old.items functions.old) members.now) }
    ensures names { IfOk result (λ m. m ≡ names.entry) }
{
    let own = member_names(alloc, units, order)?;
    let among = named(alloc, names, own)?;
    declare_outers(alloc, &among, place, members, entries, functions)?;
    Ok(units_of(among))
}

#[tactic(auto, unfolding(crate::specs::Outers::outer_unit))]
fn declare_outer_unit<'a>(
    alloc: Global,
    names: Members<'a>,
    units: &'a [Unit],
    orders: &[List<u32>],
    place: u32,
    unit: &'a Unit,
    entries: &mut Vec<Entry<'a>>,
    functions: &mut List<OuterFunction>,
) -> Result<Members<'a>, NoMemory>
    ensures made { OnOk result (making entries.new.items functions.new ≡ outer_unit names.entry units.now orders.now place (making entries.old.items functions.old) unit.now) }
    ensures names { IfOk result (λ m. m ≡ names.entry) }
{
    match unit {
        Unit::Interface { members, .. } => {
            let order = order_at(orders, place);
            let members = members.as_slice();
            declare_interface(
                alloc, names, units, order, place, members, entries, functions,
            )
        }
        _ => Ok(names),
    }
}

/// The functions of the interfaces of a file, by the names of its units, which come back.
pub fn declare_outer_units<'a>(
    alloc: Global,
    names: Members<'a>,
    units: &'a [Unit],
    orders: &[List<u32>],
    entries: &mut Vec<Entry<'a>>,
    functions: &mut List<OuterFunction>,
) -> Result<Members<'a>, NoMemory>
    ensures made { OnOk result (making entries.new.items functions.new ≡ outer_units names.entry units.now orders.now 0 (making entries.old.items functions.old) units.now) }
    ensures names { IfOk result (λ m. m ≡ names.entry) }
{
    let mut names = names;
    let mut place: u32 = 0;
    for unit in units {
        names = declare_outer_unit(alloc, names, units, orders, place, unit, entries, functions)?;
        place = next(place)?;
    }
    Ok(names)
}
