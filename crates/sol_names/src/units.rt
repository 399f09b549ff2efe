// What units and members are called, and what stands in them.

ghost use Rattle.std.specs.Prelude.{◌≡◌, slice_get};
ghost use Rattle.std.specs.Option.{option_copied, option_map};
ghost use Rattle.sol_names.specs.Names.{identifier_of};
ghost use Rattle.sol_names.specs.Orders.{name_place};
ghost use Rattle.sol_names.specs.Units.{is_contract, is_interface, is_concrete, unit_name, bases, members, member_name, is_private, implemented, is_public, exposed};

use crate::names::Named;
use sol_tree::{Base, Fun, FunSpecifier, Identifier, Member, Unit, Var, VarSpecifier};

pub fn is_contract(unit: &Unit) -> bool
    ensures { result ≡ is_contract unit.now }
{
    matches!(unit, Unit::Contract { .. } | Unit::Interface { .. })
}

pub fn is_interface(unit: &Unit) -> bool
    ensures { result ≡ is_interface unit.now }
{
    matches!(unit, Unit::Interface { .. })
}

pub fn is_concrete(unit: &Unit) -> bool
    ensures { result ≡ is_concrete unit.now }
{
    match unit {
        Unit::Contract { is_abstract, .. } => !*is_abstract,
        _ => false,
    }
}

pub fn unit_at(units: &[Unit], place: u32) -> Option<&Unit>
    ensures { option_copied result ≡ slice_get units.now place }
{
    units.get(place as usize)
}

fn named(name: &Identifier) -> Named<'_>
    ensures { identifier_of result ≡ name.now }
{
    Named {
        at: name.at,
        text: name.name.as_str(),
    }
}

pub fn unit_name(unit: &Unit) -> Named<'_>
    ensures { identifier_of result ≡ unit_name unit.now }
{
    match unit {
        Unit::Contract { name, .. } => named(name),
        Unit::Interface { name, .. } => named(name),
        Unit::Event { event, .. } => named(&event.name),
        Unit::Error { error, .. } => named(&error.name),
    }
}

// Where the name of the unit at a place stands.
pub fn name_place(units: &[Unit], place: u32) -> u32
    ensures { result ≡ name_place units.now place }
{
    match unit_at(units, place) {
        Some(unit) => unit_name(unit).at,
        None => 0,
    }
}

pub fn bases(unit: &Unit) -> &[Base]
    ensures { result.now ≡ bases unit.now }
{
    match unit {
        Unit::Contract { bases, .. } => bases.as_slice(),
        Unit::Interface { bases, .. } => bases.as_slice(),
        Unit::Event { .. } => &[],
        Unit::Error { .. } => &[],
    }
}

pub fn members(unit: &Unit) -> &[Member]
    ensures { result.now ≡ members unit.now }
{
    match unit {
        Unit::Contract { members, .. } => members.as_slice(),
        Unit::Interface { members, .. } => members.as_slice(),
        Unit::Event { .. } => &[],
        Unit::Error { .. } => &[],
    }
}

pub fn member_name(member: &Member) -> Named<'_>
    ensures { identifier_of result ≡ member_name member.now }
{
    match member {
        Member::Var { var, .. } => named(&var.name),
        Member::Fun { fun, .. } => named(&fun.name),
        Member::Constructor { at, .. } => Named {
            at: *at,
            text: "constructor",
        },
        Member::Modifier { modifier, .. } => named(&modifier.name),
        Member::Event { event, .. } => named(&event.name),
        Member::Error { error, .. } => named(&error.name),
    }
}

pub fn is_private(fun: &Fun) -> bool
    ensures { result ≡ is_private fun.now }
{
    fun.specifiers.as_slice().iter().any(|specifier| matches!(
        specifier,
        FunSpecifier::Private { .. }
    ))
}

// The name of a function that has a body and isn't private.
pub fn implemented(member: &Member) -> Option<&str>
    ensures { option_map (λ r. r.now) result ≡ implemented member.now }
{
    match member {
        Member::Fun { fun, .. } => {
            if fun.body.is_some() && !is_private(fun) {
                Some(fun.name.name.as_str())
            } else {
                None
            }
        }
        _ => None,
    }
}

fn is_public(var: &Var) -> bool
    ensures { result ≡ is_public var.now }
{
    var.specifiers.as_slice().iter().any(|specifier| matches!(
        specifier,
        VarSpecifier::Public { .. }
    ))
}

// The name of a public variable.
pub fn exposed(member: &Member) -> Option<&str>
    ensures { option_map (λ r. r.now) result ≡ exposed member.now }
{
    match member {
        Member::Var { var, .. } => {
            if is_public(var) {
                Some(var.name.name.as_str())
            } else {
                None
            }
        }
        _ => None,
    }
}
