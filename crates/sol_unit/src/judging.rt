// What units keep.

ghost use Rattle.std.specs.Prelude.{◌≡◌, ℕ, List, [], ◌∷◌, IfOk};
ghost use Rattle.sol_judged.specs.Names.{has};
ghost use Rattle.sol_names.specs.Units.{members, is_interface};
ghost use Rattle.sol_stated.specs.Checks.{Checks};
ghost use Rattle.sol_stated.specs.Contexts.{context};
ghost use Rattle.sol_unit.specs.Outers.{order_at};
ghost use Rattle.sol_unit.specs.Files.{file_names};
ghost use Rattle.sol_unit.specs.Scenes.{shared_in};
ghost use Rattle.sol_unit.specs.Judging.{kind_of, context_in, judge_unit, judge_place, judge_units, judge_alone, judge_all_alone, Keeps, judge_in, judge_own, judge_all_own, judge_with, judge_file};

use crate::added::next;
use crate::files::file_names;
use crate::inside::{inside, is_marked};
use crate::lineages::read_in;
use crate::listing::members_of;
use crate::outers::order_at;
use crate::scenes::{Scene, Shared, scene_with, shared_in, shared_of};
use chc_nums::{List, NoMemory};
use sol_declared::{UnitKind, judge_error, judge_event, judge_members};
use sol_judged::{Declared, TypeFault};
use sol_stated::{Around, Body};
use sol_tree::{File, Unit};
use std::alloc::Global;

fn kind_of(unit: &Unit) -> UnitKind
    ensures { result ≡ kind_of unit.now }
{
    match unit {
        Unit::Contract { is_abstract, .. } => {
            if *is_abstract {
                UnitKind::Abstract
            } else {
                UnitKind::Concrete
            }
        }
        Unit::Interface { .. } => UnitKind::Interface,
        Unit::Event { .. } => UnitKind::Interface,
        Unit::Error { .. } => UnitKind::Interface,
    }
}

fn around<'a>(scene: &'a Scene<'a>, unit: u32) -> Around<'a>
    ensures { context result ≡ context_in scene.now unit }
{
    Around {
        declared: &scene.declared,
        has_body: scene.has_body.as_slice(),
        unit,
        is_checked: true,
        in_loop: false,
        body: Body::Function(None),
    }
}

/// The members of a unit at a place.
pub fn judge_unit(
    alloc: Global,
    scene: &Scene<'_>,
    place: u32,
    unit: &Unit,
) -> Result<(), TypeFault>
    ensures { Checks (judge_unit scene.now place unit.now) result }
{
    judge_members(
        alloc,
        &around(scene, place),
        kind_of(unit),
        members_of(unit),
    )
}

#[tactic(auto, unfolding(crate::specs::Judging::judge_place))]
fn judge_place(
    alloc: Global,
    scene: &Scene<'_>,
    units: &[Unit],
    place: u32,
) -> Result<(), TypeFault>
    ensures { Checks (judge_place scene.now units.now place) result }
{
    match units.get(place as usize) {
        None => Ok(()),
        Some(unit) => judge_unit(alloc, scene, place, unit),
    }
}

/// The units of a linearization.
#[tactic(auto, using(crate::proofs::Alone::places))]
pub fn judge_units(
    alloc: Global,
    scene: &Scene<'_>,
    units: &[Unit],
    order: &[u32],
) -> Result<(), TypeFault>
    ensures { Checks (judge_units scene.now units.now order.now) result }
{
    for place in order {
        judge_place(alloc, scene, units, *place)?;
    }
    Ok(())
}

// ---- events and errors of the file

fn judge_alone(names: &Declared<'_>, place: u32, unit: &Unit) -> Result<(), TypeFault>
    ensures { Checks (judge_alone names.now place unit.now) result }
{
    match unit {
        Unit::Contract { .. } => Ok(()),
        Unit::Interface { .. } => Ok(()),
        Unit::Event { event, .. } => judge_event(&read_in(names, place), event),
        Unit::Error { error, .. } => judge_error(&read_in(names, place), error),
    }
}

#[tactic(auto, using(crate::proofs::Alone::alone))]
fn judge_all_alone(names: &Declared<'_>, units: &[Unit]) -> Result<(), TypeFault>
    ensures { Checks (judge_all_alone names.now 0 units.now) result }
{
    let mut place: u32 = 0;
    for unit in units {
        judge_alone(names, place, unit)?;
        place = next(place)?;
    }
    Ok(())
}

fn judge_file_alone(alloc: Global, units: &[Unit]) -> Result<(), TypeFault>
    ensures { Checks (judge_all_alone (file_names units.now) 0 units.now) result }
{
    let names = file_names(alloc, units)?;
    judge_all_alone(&names, units)
}

// ---- the whole

#[tactic(auto, using(crate::proofs::Sharing::sharing), unfolding(crate::specs::Judging::judge_in))]
fn judge_in<'a>(
    alloc: Global,
    units: &'a [Unit],
    shared: Shared<'a>,
    order: List<u32>,
    places: &[u32],
) -> Result<Shared<'a>, TypeFault>
    ensures { Keeps (judge_in units.now shared.entry order places.now) shared.entry result }
{
    let events = shared.events.len();
    let errors = shared.errors.len();
    let scene = scene_with(alloc, units, shared, order)?;
    judge_units(alloc, &scene, units, places)?;
    Ok(shared_of(scene, events, errors))
}

fn copied(alloc: Global, order: &[u32]) -> Result<List<u32>, NoMemory>
    ensures { IfOk result (λ l. l ≡ order.now) }
{
    Ok(List::from_vec(Vec::from_slice(alloc, order)?))
}

fn is_interface(unit: &Unit) -> bool
    ensures { result ≡ is_interface unit.now }
{
    matches!(unit, Unit::Interface { .. })
}

fn judge_outside<'a>(
    alloc: Global,
    units: &'a [Unit],
    shared: Shared<'a>,
    place: u32,
) -> Result<Shared<'a>, TypeFault>
    ensures { Keeps (judge_in units.now shared.entry (order_at shared.entry.orders place) (place ∷ [])) shared.entry result }
{
    let order = copied(alloc, order_at(shared.orders.as_slice(), place))?;
    judge_in(alloc, units, shared, order, &[place])
}

fn judge_own<'a>(
    alloc: Global,
    units: &'a [Unit],
    shared: Shared<'a>,
    is_inside: bool,
    place: u32,
    unit: &Unit,
) -> Result<Shared<'a>, TypeFault>
    ensures { (lineage : List ℕ) → has lineage place ≡ is_inside → Keeps (judge_own units.now shared.entry lineage place unit.now) shared.entry result }
{
    if is_interface(unit) && !is_inside {
        judge_outside(alloc, units, shared, place)
    } else {
        Ok(shared)
    }
}

#[tactic(auto, using(crate::proofs::Alone::own))]
fn judge_all_own<'a>(
    alloc: Global,
    units: &'a [Unit],
    shared: Shared<'a>,
    lineage: &[u32],
) -> Result<Shared<'a>, TypeFault>
    ensures { Keeps (judge_all_own units.now shared.entry lineage.now 0 units.now) shared.entry result }
{
    let marks = inside(alloc, units.len(), lineage)?;
    let mut shared = shared;
    let mut place: u32 = 0;
    for unit in units {
        let is_inside = is_marked(&marks, place);
        shared = judge_own(alloc, units, shared, is_inside, place, unit)?;
        place = next(place)?;
    }
    Ok(shared)
}

#[tactic(auto, using(sol_judged::proofs::Faults::faults))]
fn judge_with<'a>(
    alloc: Global,
    units: &'a [Unit],
    shared: Shared<'a>,
    lineage: &[u32],
) -> Result<(), TypeFault>
    ensures { Checks (judge_with units.now shared.entry lineage.now) result }
{
    let order = copied(alloc, lineage)?;
    let shared = judge_in(alloc, units, shared, order, lineage)?;
    let _shared = judge_all_own(alloc, units, shared, lineage)?;
    Ok(())
}

fn judge_shared(
    alloc: Global,
    units: &[Unit],
    orders: List<List<u32>>,
    lineage: &[u32],
) -> Result<(), TypeFault>
    ensures { Checks (judge_with units.now (shared_in units.now orders) lineage.now) result }
{
    let shared = shared_in(alloc, units, orders)?;
    judge_with(alloc, units, shared, lineage)
}

#[tactic(auto, using(sol_judged::proofs::Faults::faults), unfolding(crate::specs::Judging::judge_file))]
fn judge_all_units(
    alloc: Global,
    units: &[Unit],
    orders: List<List<u32>>,
    lineage: &[u32],
) -> Result<(), TypeFault>
    ensures { Checks (judge_file units.now orders lineage.now) result }
{
    judge_file_alone(alloc, units)?;
    judge_shared(alloc, units, orders, lineage)
}

/// The units of a file whose units have these linearizations, for the contract with this one: those of the linearization, in its
/// tables, every other interface in those of its own, and the events and errors of the file.
pub fn judge_file(
    alloc: Global,
    file: &File,
    orders: List<List<u32>>,
    lineage: &[u32],
) -> Result<(), TypeFault>
    ensures { Checks (judge_file file.now.units orders lineage.now) result }
{
    judge_all_units(alloc, file.units.as_slice(), orders, lineage)
}
