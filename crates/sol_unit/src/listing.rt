// Members by their names.

ghost use Rattle.std.specs.Prelude.{◌≡◌, map, option_map, OnOk, slice_get};
ghost use Rattle.sol_judged.specs.Listed.{listed};
ghost use Rattle.sol_names.specs.Units.{members, is_private};
ghost use Rattle.sol_unit.specs.Listing.{name_of, is_private_variable, is_private_member, with_name, with_member, members_at};

use chc_nums::NoMemory;
use sol_judged::{Meaning, Member as Entry};
use sol_tree::{Fun, FunSpecifier, Member, Unit, Var, VarSpecifier};

/// The name by which a member is found.
pub fn name_of(member: &Member) -> Option<&str>
    ensures { option_map (λ r. r.now) result ≡ name_of member.now }
{
    match member {
        Member::Var { var, .. } => Some(var.name.name.as_str()),
        Member::Fun { fun, .. } => Some(fun.name.name.as_str()),
        Member::Constructor { .. } => None,
        Member::Modifier { modifier, .. } => Some(modifier.name.name.as_str()),
        Member::Event { event, .. } => Some(event.name.name.as_str()),
        Member::Error { error, .. } => Some(error.name.name.as_str()),
    }
}

fn is_private_variable(var: &Var) -> bool
    ensures { result ≡ is_private_variable var.now }
{
    var.specifiers
        .as_slice()
        .iter()
        .any(|mark| matches!(mark, VarSpecifier::Private { .. }))
}

fn is_private_function(fun: &Fun) -> bool
    ensures { result ≡ is_private fun.now }
{
    fun.specifiers
        .as_slice()
        .iter()
        .any(|mark| matches!(mark, FunSpecifier::Private { .. }))
}

fn is_private_member(member: &Member) -> bool
    ensures { result ≡ is_private_member member.now }
{
    match member {
        Member::Var { var, .. } => is_private_variable(var),
        Member::Fun { fun, .. } => is_private_function(fun),
        _ => false,
    }
}

fn list_name<'a>(
    entries: &mut Vec<Entry<'a>>,
    unit: u32,
    is_private: bool,
    meaning: Meaning,
    name: Option<&'a str>,
) -> Result<(), NoMemory>
    ensures { OnOk result (map listed entries.new.items ≡ with_name unit is_private meaning (option_map (λ r. r.now) name.entry) (map listed entries.old.items)) }
{
    if let Some(name) = name {
        entries.push(Entry {
            name,
            unit,
            is_private,
            meaning,
        })?;
    }
    Ok(())
}

/// One more entry for a member of the unit at a place.
#[tactic(auto, unfolding(crate::specs::Listing::with_member))]
pub fn list_member<'a>(
    entries: &mut Vec<Entry<'a>>,
    unit: u32,
    member: &'a Member,
    meaning: Meaning,
) -> Result<(), NoMemory>
    ensures { OnOk result (map listed entries.new.items ≡ with_member unit member.now meaning (map listed entries.old.items)) }
{
    list_name(
        entries,
        unit,
        is_private_member(member),
        meaning,
        name_of(member),
    )
}

/// The members of a unit.
pub fn members_of(unit: &Unit) -> &[Member]
    ensures { result.now ≡ members unit.now }
{
    match unit {
        Unit::Contract { members, .. } => members.as_slice(),
        Unit::Interface { members, .. } => members.as_slice(),
        Unit::Event { .. } => &[],
        Unit::Error { .. } => &[],
    }
}

/// The members of the unit at a place.
pub fn members_at(units: &[Unit], place: u32) -> &[Member]
    ensures { result.now ≡ members_at units.now place }
{
    match units.get(place as usize) {
        Some(unit) => members_of(unit),
        None => &[],
    }
}
