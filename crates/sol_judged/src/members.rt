// What names and members are.

ghost use Rattle.std.specs.Prelude.{◌≡◌, Some, None, bytes_eq, true};
ghost use Rattle.sol_judged.specs.Settings.{setting};
ghost use Rattle.sol_judged.specs.declared.fault.TypeFault.TheVariants as fault;
ghost use Rattle.sol_judged.specs.declared.rules.Rule.TheVariants as rule;
ghost use Rattle.sol_judged.specs.Judged.{Judges};
ghost use Rattle.sol_judged.specs.Types.{is_integer_type};
ghost use Rattle.sol_judged.specs.Found.{Known};
ghost use Rattle.sol_judged.specs.Naming.{constant_at, named_at};
ghost use Rattle.sol_judged.specs.Members.{message_member, bound_of, elementary_member, function_member, super_member, unit_member, array_member, outer_member, value_member, other_member, member_of};
ghost use Rattle.sol_judged.specs.TypeMembers.{type_member, elementary_of};

use crate::copies::copy_expr;
use crate::fault::TypeFault;
use crate::findings::{Found, Thing, Value};
use crate::linked::has;
use crate::names::{order_of, outer_named, seen_by, super_named};
use crate::operands::{number_of, side};
use crate::rules::Rule;
use crate::tables::{Constant, Meaning, Surroundings};
use crate::types::{ValueType, is_integer_type};
use chc_nums::{Ty, range};
use sol_core::{Expr, Place};
use sol_tree::{Identifier, Type};
use sqlite_items::{Boxed, Items};
use std::alloc::Global;

// ---- names

fn constant_at(alloc: Global, at: u32, constant: &Constant) -> Result<Found, TypeFault>
    ensures { Judges Known (constant_at at (Some constant.now)) result }
{
    let value = copy_expr(alloc, &constant.value)?;
    Ok(Found::Value(Some(at), constant.ty, Boxed::new(alloc, value)?))
}

/// What a name stands for.
pub fn named_at(
    alloc: Global,
    w: &Surroundings<'_>,
    at: u32,
    meaning: Option<Meaning>,
) -> Result<Found, TypeFault>
    ensures { Judges Known (named_at (setting w.now) at meaning) result }
{
    match meaning {
        None => Err(TypeFault::Broken {
            rule: Rule::Naming,
            at,
        }),
        Some(Meaning::Local(i, ty)) => {
            let place = Boxed::new(alloc, Place::Local(i))?;
            Ok(Found::Place(Some(at), ty, place))
        }
        Some(Meaning::Constant(c)) => match w.declared.constants.get(c as usize) {
            None => Err(TypeFault::Broken {
                rule: Rule::Naming,
                at,
            }),
            Some(constant) => constant_at(alloc, at, constant),
        },
        Some(Meaning::Scalar(i, ty)) => {
            let place = Boxed::new(alloc, Place::Scalar(i))?;
            Ok(Found::Place(Some(at), ty, place))
        }
        Some(Meaning::Mapping(m)) => Ok(Found::Mapping(Some(at), m, Items::new(alloc))),
        Some(Meaning::Array(a, ty)) => Ok(Found::Array(at, a, ty)),
        Some(Meaning::Function(function)) => Ok(Found::Thing(
            at,
            Thing::Function {
                function,
                is_member: false,
            },
        )),
        Some(Meaning::Outer(_)) => Ok(Found::Thing(at, Thing::Other)),
        Some(Meaning::Modifier(_)) => Ok(Found::Thing(at, Thing::Other)),
        Some(Meaning::Event(_)) => Ok(Found::Thing(at, Thing::Other)),
        Some(Meaning::Error(_)) => Ok(Found::Thing(at, Thing::Other)),
        Some(Meaning::Contract(unit)) => Ok(Found::Thing(at, Thing::Contract { unit })),
        Some(Meaning::Interface(unit)) => Ok(Found::Thing(at, Thing::Interface { unit })),
        Some(Meaning::Faulty(rule, place)) => Err(TypeFault::Broken { rule, at: place }),
    }
}

// ---- members

fn no_member(member: &Identifier) -> TypeFault
    ensures { result ≡ fault.Broken rule.Member member.now.at }
{
    TypeFault::Broken {
        rule: Rule::Member,
        at: member.at,
    }
}

fn is_called(member: &Identifier, name: &str) -> bool
    ensures { result ≡ bytes_eq member.now.name name.now }
{
    member.name.as_str() == name
}

/// `msg.sender`
#[tactic(auto, unfolding(crate::specs::Members::message_member))]
pub fn message_member(alloc: Global, member: &Identifier) -> Result<Found, TypeFault>
    ensures { Judges Known (message_member member.now) result }
{
    if is_called(member, "sender") {
        let expr = Boxed::new(alloc, Expr::Sender)?;
        Ok(Found::Value(None, ValueType::Elementary(Ty::Addr), expr))
    } else {
        Err(no_member(member))
    }
}

fn bound_of(alloc: Global, ty: Ty, member: &Identifier) -> Result<Found, TypeFault>
    requires { is_integer_type ty ≡ true }
    ensures { Judges Known (bound_of ty member.now) result }
{
    let (least, greatest) = range(ty);
    if is_called(member, "min") {
        let expr = number_of(alloc, least, ty)?;
        Ok(Found::Value(None, ValueType::Elementary(ty), expr))
    } else if is_called(member, "max") {
        let expr = number_of(alloc, greatest, ty)?;
        Ok(Found::Value(None, ValueType::Elementary(ty), expr))
    } else {
        Err(no_member(member))
    }
}

#[tactic(auto, unfolding(crate::specs::Members::elementary_member))]
fn elementary_member(alloc: Global, ty: Ty, member: &Identifier) -> Result<Found, TypeFault>
    ensures { Judges Known (elementary_member ty member.now) result }
{
    if is_integer_type(ty) {
        bound_of(alloc, ty, member)
    } else {
        Err(no_member(member))
    }
}

#[tactic(auto, using(crate::proofs::TypeNames::elementary))]
fn elementary_of(ty: &Type) -> Option<Ty>
    ensures { result ≡ elementary_of ty.now }
{
    match ty {
        Type::Elementary { ty, .. } => Some(*ty),
        Type::Named { .. } => None,
        Type::Array { .. } => None,
        Type::Mapping { .. } => None,
    }
}

/// `type(T).min` and `type(T).max`
#[tactic(auto, unfolding(crate::specs::TypeMembers::type_member))]
pub fn type_member(
    alloc: Global,
    w: &Surroundings<'_>,
    ty: &Type,
    member: &Identifier,
) -> Result<Found, TypeFault>
    ensures { Judges Known (type_member (setting w.now) ty.now member.now) result }
{
    match elementary_of(ty) {
        Some(t) => elementary_member(alloc, t, member),
        None => Err(no_member(member)),
    }
}

fn function_member(member: &Identifier, meaning: Option<Meaning>) -> Result<Found, TypeFault>
    ensures { Judges Known (function_member member.now meaning) result }
{
    match meaning {
        Some(Meaning::Function(function)) => Ok(Found::Thing(
            member.at,
            Thing::Function {
                function,
                is_member: true,
            },
        )),
        Some(Meaning::Faulty(rule, place)) => Err(TypeFault::Broken { rule, at: place }),
        _ => Err(no_member(member)),
    }
}

/// `super.f`
#[tactic(auto, unfolding(crate::specs::Members::super_member))]
pub fn super_member(w: &Surroundings<'_>, member: &Identifier) -> Result<Found, TypeFault>
    ensures { Judges Known (super_member (setting w.now) member.now) result }
{
    function_member(
        member,
        super_named(w.declared, w.unit, member.name.as_str()),
    )
}

#[tactic(auto, unfolding(crate::specs::Members::unit_member))]
fn unit_member(
    w: &Surroundings<'_>,
    at: u32,
    unit: u32,
    member: &Identifier,
) -> Result<Found, TypeFault>
    ensures { Judges Known (unit_member (setting w.now) at unit member.now) result }
{
    if has(order_of(w.declared, w.unit), unit) {
        function_member(member, seen_by(w.declared, unit, member.name.as_str()))
    } else {
        Err(TypeFault::Broken {
            rule: Rule::Naming,
            at,
        })
    }
}

#[tactic(auto, unfolding(crate::specs::Members::array_member))]
fn array_member(
    alloc: Global,
    array: u32,
    element: ValueType,
    member: &Identifier,
) -> Result<Found, TypeFault>
    ensures { Judges Known (array_member array element member.now) result }
{
    if is_called(member, "length") {
        let expr = Boxed::new(alloc, Expr::Len(array))?;
        Ok(Found::Value(Some(member.at), ValueType::Elementary(Ty::Uint(12)), expr))
    } else if is_called(member, "push") {
        Ok(Found::Thing(member.at, Thing::Push { array, element }))
    } else if is_called(member, "pop") {
        Ok(Found::Thing(member.at, Thing::Pop { array }))
    } else {
        Err(no_member(member))
    }
}

fn outer_member(
    member: &Identifier,
    target: Boxed<Expr>,
    meaning: Option<Meaning>,
) -> Result<Found, TypeFault>
    ensures { Judges Known (outer_member member.now target meaning) result }
{
    match meaning {
        Some(Meaning::Outer(function)) => Ok(Found::Outer(member.at, function, target)),
        Some(Meaning::Faulty(rule, place)) => Err(TypeFault::Broken { rule, at: place }),
        _ => Err(no_member(member)),
    }
}

fn value_member(w: &Surroundings<'_>, member: &Identifier, value: Value) -> Result<Found, TypeFault>
    ensures { Judges Known (value_member (setting w.now) member.now (Some value)) result }
{
    match value.ty {
        ValueType::Elementary(_) => Err(no_member(member)),
        ValueType::Interface(interface) => outer_member(
            member,
            value.expr,
            outer_named(w.declared, interface, member.name.as_str()),
        ),
    }
}

#[tactic(auto, using(crate::proofs::Faults::faults), unfolding(crate::specs::Members::other_member))]
fn other_member(
    alloc: Global,
    w: &Surroundings<'_>,
    first: u32,
    base: Found,
    member: &Identifier,
) -> Result<Found, TypeFault>
    ensures { Judges Known (other_member (setting w.now) first member.now (Known base)) result }
{
    let value = side(alloc, Rule::Member, member.at, None, first, base)?;
    value_member(w, member, value)
}

/// A member of what stands before the `.`.
#[tactic(auto, unfolding(crate::specs::Members::member_of))]
pub fn member_of(
    alloc: Global,
    w: &Surroundings<'_>,
    first: u32,
    base: Found,
    member: &Identifier,
) -> Result<Found, TypeFault>
    ensures { Judges Known (member_of (setting w.now) first (Known base) member.now) result }
{
    match base {
        Found::Array(_, array, element) => array_member(alloc, array, element, member),
        Found::Thing(at, Thing::Contract { unit }) => unit_member(w, at, unit, member),
        Found::Thing(at, Thing::Interface { unit }) => unit_member(w, at, unit, member),
        Found::Literal(_) => Err(no_member(member)),
        other => other_member(alloc, w, first, other, member),
    }
}
