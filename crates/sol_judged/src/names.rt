// What names mean.

ghost use Rattle.std.specs.Prelude.{◌≡◌};
ghost use Rattle.sol_judged.specs.Settings.{setting};
ghost use Rattle.sol_judged.specs.Names.{behind, last_binding, order_of, member_named, meaning_of, super_named, seen_by, first_outer, outer_named};

use crate::linked::{Members, Sought};
use crate::tables::{Binding, Declared, Meaning, Surroundings};

// What stands behind a number in a list.
fn behind(units: &[u32], unit: u32) -> &[u32]
    ensures { result.now ≡ behind units.now unit }
{
    let mut rest = units;
    while let [first, more @ ..] = rest {
        if *first == unit {
            return more;
        }
        rest = more;
    }
    &[]
}

/// What a local name means: the last one of that name counts.
pub fn last_binding(bindings: &[Binding], name: &str) -> Option<Meaning>
    ensures { result ≡ last_binding bindings.now name.now }
{
    let mut last = None;
    let mut rest = bindings;
    while let [binding, more @ ..] = rest {
        if binding.name.as_str() == name {
            last = Some(binding.meaning);
        }
        rest = more;
    }
    last
}

/// The linearization of the unit at a place.
pub fn order_of<'a>(declared: &'a Declared<'_>, unit: u32) -> &'a [u32]
    ensures { result.now ≡ order_of declared.now unit }
{
    match declared.orders.get(unit as usize) {
        None => &[],
        Some(order) => order.as_slice(),
    }
}

#[tactic(auto, unfolding(crate::specs::Names::member_named))]
fn member_named(declared: &Declared<'_>, unit: u32, name: &str) -> Option<Meaning>
    ensures { result ≡ member_named declared.now unit name.now }
{
    match declared.members.find(Sought::Own(unit), &[], name) {
        Some(meaning) => Some(meaning),
        None => declared.members.find(Sought::Shared, &[], name),
    }
}

/// What a name means: a local, a member, or a unit of the file.
#[tactic(auto, unfolding(crate::specs::Names::meaning_of))]
pub fn meaning_of(surroundings: &Surroundings<'_>, name: &str) -> Option<Meaning>
    ensures { result ≡ meaning_of (setting surroundings.now) name.now }
{
    if let Some(meaning) = last_binding(surroundings.locals, name) {
        return Some(meaning);
    }
    if let Some(meaning) = member_named(surroundings.declared, surroundings.unit, name) {
        return Some(meaning);
    }
    surroundings.declared.units.find(Sought::Shared, &[], name)
}

/// What `super` has under a name.
#[tactic(auto, unfolding(crate::specs::Names::super_named))]
pub fn super_named(declared: &Declared<'_>, unit: u32, name: &str) -> Option<Meaning>
    ensures { result ≡ super_named declared.now unit name.now }
{
    let units = behind(declared.lineage.as_slice(), unit);
    declared.members.find(Sought::Among, units, name)
}

/// What a unit has under a name.
#[tactic(auto, unfolding(crate::specs::Names::seen_by))]
pub fn seen_by(declared: &Declared<'_>, unit: u32, name: &str) -> Option<Meaning>
    ensures { result ≡ seen_by declared.now unit name.now }
{
    let units = order_of(declared, unit);
    declared.members.find(Sought::SeenBy(unit), units, name)
}

fn first_outer(units: &[u32], members: &Members<'_>, name: &str) -> Option<Meaning>
    ensures { result ≡ first_outer units.now members.now name.now }
{
    let mut rest = units;
    while let [unit, more @ ..] = rest {
        if let Some(meaning) = members.find(Sought::Of(*unit), &[], name) {
            return Some(meaning);
        }
        rest = more;
    }
    None
}

/// What a value of an interface type has under a name.
#[tactic(auto, unfolding(crate::specs::Names::outer_named))]
pub fn outer_named(declared: &Declared<'_>, interface: u32, name: &str) -> Option<Meaning>
    ensures { result ≡ outer_named declared.now interface name.now }
{
    first_outer(
        order_of(declared, interface),
        &declared.interface_members,
        name,
    )
}
