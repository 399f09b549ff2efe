// Which names a file has twice, which contract is chosen, and which units are the bases of each.

ghost use Rattle.std.specs.Prelude.{◌≡◌, ℕ, suc, List, map, option_map, IfOk, is_some, not, ◌&&◌};
ghost use Rattle.sol_names.specs.Least.{least_from, least_in};
ghost use Rattle.sol_names.specs.Names.{identifier_of, number_of};
ghost use Rattle.sol_names.specs.Units.{is_contract, unit_name, member_name, members, bases};
ghost use Rattle.sol_names.specs.Orders.{named_twice, contract_named, last_concrete, chosen, unknown_among, unknown_bases, base_places, base_graph};

use crate::names::{Named, Numbers, least_repeated, lesser, number_of, set_number};
use crate::units::{bases, is_concrete, is_contract, member_name, members, unit_name};
use chc_nums::{List, NoMemory};
use indexmap::IndexMap;
use sol_tree::{Base, Member, Unit};
use std::alloc::Global;

// The place after another.
fn next(place: u32) -> Result<u32, NoMemory>
    ensures { IfOk result (λ m. m ≡ suc place) }
{
    match place.checked_add(1) {
        None => Err(NoMemory),
        Some(next) => Ok(next),
    }
}

fn unit_names<'a>(alloc: Global, units: &'a [Unit]) -> Result<Vec<Named<'a>>, NoMemory>
    ensures { IfOk result (λ v. map identifier_of v.items ≡ map unit_name units.now) }
{
    let mut names = Vec::new(alloc);
    for unit in units {
        names.push(unit_name(unit))?;
    }
    Ok(names)
}

fn member_names<'a>(alloc: Global, members: &'a [Member]) -> Result<Vec<Named<'a>>, NoMemory>
    ensures { IfOk result (λ v. map identifier_of v.items ≡ map member_name members.now) }
{
    let mut names = Vec::new(alloc);
    for member in members {
        names.push(member_name(member))?;
    }
    Ok(names)
}

// The least place of a name that stands twice.
pub fn twice_named(alloc: Global, units: &[Unit]) -> Result<Option<u32>, NoMemory>
    ensures { IfOk result (λ o. o ≡ least_in (named_twice units.now)) }
{
    let names = unit_names(alloc, units)?;
    let mut least = least_repeated(alloc, None, names.as_slice())?;
    let mut rest = units;
    while let [unit, more @ ..] = rest {
        let names = member_names(alloc, members(unit))?;
        least = least_repeated(alloc, least, names.as_slice())?;
        rest = more;
    }
    Ok(least)
}

// Whether a unit is the first contract or interface of its name.
fn is_first<'a>(numbers: &Numbers<'a>, unit: &'a Unit) -> bool
    ensures { result ≡ (is_contract unit.now && not (is_some (number_of numbers.now (unit_name unit.now).name))) }
{
    is_contract(unit) && number_of(numbers, unit_name(unit).text).is_none()
}

// The places of contracts and interfaces by their names, the first of each name.
pub fn contracts<'a>(alloc: Global, units: &'a [Unit]) -> Result<Numbers<'a>, NoMemory>
    ensures { IfOk result (λ m. (q : List ℕ) → number_of m q ≡ contract_named q units.now) }
{
    let mut numbers = IndexMap::new(alloc);
    let mut place = 0u32;
    let mut rest = units;
    while let [unit, more @ ..] = rest {
        if is_first(&numbers, unit) {
            set_number(&mut numbers, unit_name(unit).text, place)?;
        }
        place = next(place)?;
        rest = more;
    }
    Ok(numbers)
}

fn last_concrete(units: &[Unit]) -> Result<Option<u32>, NoMemory>
    ensures { IfOk result (λ o. o ≡ last_concrete 0 units.now) }
{
    let mut last = None;
    let mut place = 0u32;
    let mut rest = units;
    while let [unit, more @ ..] = rest {
        if is_concrete(unit) {
            last = Some(place);
        }
        place = next(place)?;
        rest = more;
    }
    Ok(last)
}

pub fn chosen<'a>(
    numbers: &Numbers<'a>,
    units: &'a [Unit],
    name: Option<&'a str>,
) -> Result<Option<u32>, NoMemory>
    requires { (q : List ℕ) → number_of numbers.now q ≡ contract_named q units.now }
    ensures { IfOk result (λ o. o ≡ chosen (option_map (λ r. r.now) name.entry) units.now) }
{
    match name {
        Some(name) => Ok(number_of(numbers, name)),
        None => last_concrete(units),
    }
}

// The places of the units that are bases of each unit, the last base first, and the least place of a base that names no unit.
#[derive(Drop)]
pub struct Graph {
    pub bases: List<List<u32>>,
    pub unknown: Option<u32>,
}

// The least place of a base that names no contract, or a lesser one that is given.
fn least_unknown<'a>(
    numbers: &Numbers<'a>,
    units: &'a [Unit],
    bases: &'a [Base],
    least: Option<u32>,
) -> Option<u32>
    requires { (q : List ℕ) → number_of numbers.now q ≡ contract_named q units.now }
    ensures { result ≡ least_from least (unknown_among units.now bases.now) }
{
    let mut least = least;
    let mut rest = bases;
    while let [base, more @ ..] = rest {
        if number_of(numbers, base.name.name.as_str()).is_none() {
            least = lesser(least, base.name.at);
        }
        rest = more;
    }
    least
}

fn places_of<'a>(
    alloc: Global,
    numbers: &Numbers<'a>,
    unit: &'a Unit,
    units: &'a [Unit],
) -> Result<List<u32>, NoMemory>
    requires { (q : List ℕ) → number_of numbers.now q ≡ contract_named q units.now }
    ensures { IfOk result (λ l. l ≡ base_places units.now unit.now) }
{
    let mut places = Vec::new(alloc);
    let mut rest = bases(unit);
    while let [base, more @ ..] = rest {
        if let Some(place) = number_of(numbers, base.name.name.as_str()) {
            places.push(place)?;
        }
        rest = more;
    }
    places.reverse();
    Ok(List::from_vec(places))
}

pub fn base_graph<'a>(
    alloc: Global,
    numbers: &Numbers<'a>,
    units: &'a [Unit],
) -> Result<Graph, NoMemory>
    requires { (q : List ℕ) → number_of numbers.now q ≡ contract_named q units.now }
    ensures bases { IfOk result (λ g. g.bases ≡ base_graph units.now) }
    ensures unknown { IfOk result (λ g. g.unknown ≡ least_in (unknown_bases units.now)) }
{
    let mut graph = List::new(alloc);
    let mut unknown = None;
    let mut rest = units;
    while let [unit, more @ ..] = rest {
        unknown = least_unknown(numbers, units, bases(unit), unknown);
        graph.push(places_of(alloc, numbers, unit, units)?)?;
        rest = more;
    }
    Ok(Graph {
        bases: graph,
        unknown,
    })
}
