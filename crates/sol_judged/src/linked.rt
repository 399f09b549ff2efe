// Members that are found by their names without going through all.

ghost use Rattle.std.specs.Prelude.{◌≡◌, ℕ, List, IfOk, OnOk, Some, None, length, map, bytes_eq, if◌then◌else◌, unwrap_or, slice_get};
ghost use Rattle.sol_judged.specs.Names.{has, is_sought, last_member};
ghost use Rattle.sol_judged.specs.Listed.{listed};
ghost use Rattle.sol_judged.specs.Linked.{last_below, number_of, ArePrevious};

use crate::tables::{Meaning, Member};
use chc_nums::NoMemory;
use indexmap::IndexMap;
use std::alloc::Global;
use std::marker::Model;

// The place of the last member of each name.
type Numbers<'a> = IndexMap<&'a str, u32>;

/// Members in order, which are found by their names. Contracts see the list.
#[derive(Drop)]
pub struct Members<'a> {
    entries: Vec<Member<'a>>,
    // The place of the one before each that has its name.
    previous: Vec<Option<u32>>,
    last: Numbers<'a>,
}

impl<'a> Model for Members<'a> {
    ghost use Rattle.std.specs.Prelude.{List};
    ghost use Rattle.std.specs.Prelude.{map};
    ghost use Rattle.sol_judged.specs.Listed.{Listed, listed};
    ghost use Rattle.sol_judged.specs.Linked.{IsLinked};

    ghost Value = { List Listed };

    ghost view = { λ m. map listed m.entries.items };

    ghost invariant = { λ m. IsLinked m.entries.items m.previous.items m.last };
}

/// Which members are looked for: the private ones of a unit, those that aren't private, those of some units that aren't
/// private, those of some units that one of them sees, or all of a unit.
#[derive(Clone, Copy)]
pub enum Sought {
    Own(u32),
    Shared,
    Among,
    SeenBy(u32),
    Of(u32),
}

/// Whether a list has a number.
pub fn has(units: &[u32], unit: u32) -> bool
    ensures { result ≡ has units.now unit }
{
    let mut rest = units;
    while let [first, more @ ..] = rest {
        if *first == unit {
            return true;
        }
        rest = more;
    }
    false
}

fn is_sought(sought: Sought, units: &[u32], member: &Member<'_>) -> bool
    ensures { result ≡ is_sought sought units.now (listed member.now) }
{
    match sought {
        Sought::Own(unit) => member.unit == unit && member.is_private,
        Sought::Shared => !member.is_private,
        Sought::Among => has(units, member.unit) && !member.is_private,
        Sought::SeenBy(unit) => {
            has(units, member.unit) && (!member.is_private || member.unit == unit)
        }
        Sought::Of(unit) => member.unit == unit,
    }
}

fn number_of<'a>(last: &Numbers<'a>, name: &'a str) -> Option<u32>
    ensures { result ≡ number_of last.now name.now }
{
    last.get(&name).copied()
}

fn set_number<'a>(last: &mut Numbers<'a>, name: &'a str, number: u32) -> Result<(), NoMemory>
    ensures { OnOk result ((q : List ℕ) → number_of last.new q ≡ (if bytes_eq name.now q then Some number else number_of last.old q)) }
{
    last.insert(name, number)?;
    Ok(())
}

// The place before a place.
fn one_before(previous: &[Option<u32>], place: usize) -> Option<u32>
    ensures { result ≡ unwrap_or (slice_get previous.now place) None }
{
    match previous.get(place) {
        Some(before) => *before,
        None => None,
    }
}

// Of so many members, from the last of a name on, the first that is sought.
#[tactic(auto, using(crate::proofs::Linking::walking))]
fn found(
    entries: &[Member<'_>],
    previous: &[Option<u32>],
    from: Option<u32>,
    sought: Sought,
    units: &[u32],
    name: &str,
) -> Option<Meaning>
    requires linked { ArePrevious entries.now previous.now (length entries.now) }
    requires last { from ≡ last_below entries.now name.now (length entries.now) }
    ensures { result ≡ last_member sought units.now (map listed entries.now) name.now }
{
    let mut at = from;
    let mut below = entries.len();
    while let Some(i) = at {
        let place = i as usize;
        let Some(member) = entries.get(place) else {
            return None;
        };
        if is_sought(sought, units, member) {
            return Some(member.meaning);
        }
        at = one_before(previous, place);
        below = place;
    }
    None
}

impl<'a> Members<'a> {
    /// Members in this order.
    pub fn from_vec(alloc: Global, entries: Vec<Member<'a>>) -> Result<Members<'a>, NoMemory>
        ensures { IfOk result (λ m. m ≡ map listed entries.entry.items) }
    {
        let mut previous = Vec::new(alloc);
        let mut last = IndexMap::new(alloc);
        let mut number: u32 = 0;
        for entry in entries.as_slice() {
            previous.push(number_of(&last, entry.name))?;
            set_number(&mut last, entry.name, number)?;
            let Some(next) = number.checked_add(1) else {
                return Err(NoMemory);
            };
            number = next;
        }
        Ok(Members {
            entries,
            previous,
            last,
        })
    }

    /// What the last of the members of a name that are sought means.
    pub fn find(&self, sought: Sought, units: &[u32], name: &str) -> Option<Meaning>
        ensures { result ≡ last_member sought units.now self.now name.now }
    {
        found(
            self.entries.as_slice(),
            self.previous.as_slice(),
            number_of(&self.last, name),
            sought,
            units,
            name,
        )
    }
}
