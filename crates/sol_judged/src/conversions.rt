// Explicit conversions.

ghost use Rattle.std.specs.Prelude.{◌≡◌, Some};
ghost use Rattle.sol_judged.specs.Judged.{Judges};
ghost use Rattle.sol_judged.specs.Found.{Known};
ghost use Rattle.sol_judged.specs.Conversions.{literal_converts, literal_to, converted_to, converted_value, converted, interface_from, interface_of};

use crate::fault::TypeFault;
use crate::findings::{Found, Value};
use crate::operands::{cast, number_of, side, unfit};
use crate::rules::Rule;
use crate::types::{
    ValueType, becomes_interface, converts, fits_elementary, program_type, smallest,
};
use chc_nums::{Ty, range};
use sol_core::Expr;
use sqlite_items::Boxed;
use std::alloc::Global;

fn literal_converts(ty: Ty, z: i128) -> bool
    ensures { result ≡ literal_converts ty z }
{
    match ty {
        Ty::Bool => false,
        Ty::Uint(n) => fits_elementary(Ty::Uint(n), z),
        Ty::Int(n) => fits_elementary(Ty::Int(n), z),
        Ty::Addr => {
            let (_, greatest) = range(Ty::Addr);
            0 <= z && z <= greatest
        }
    }
}

fn literal_to(
    alloc: Global,
    opened: u32,
    ty: Ty,
    first: u32,
    z: i128,
) -> Result<Boxed<Expr>, TypeFault>
    ensures { Judges (λ e. e) (literal_to opened ty first z) result }
{
    if literal_converts(ty, z) {
        Ok(number_of(alloc, z, ty)?)
    } else {
        unfit(
            Rule::Conversion,
            opened,
            ValueType::Elementary(ty),
            first,
            smallest(z),
        )
    }
}

fn converted_to(alloc: Global, opened: u32, ty: Ty, v: Value) -> Result<Boxed<Expr>, TypeFault>
    ensures { Judges (λ e. e) (converted_to opened ty (Some v)) result }
{
    if converts(v.ty, ty) {
        Ok(cast(alloc, program_type(v.ty), ty, v.expr)?)
    } else {
        Err(TypeFault::Broken {
            rule: Rule::Conversion,
            at: opened,
        })
    }
}

#[tactic(auto, using(crate::proofs::Faults::faults), unfolding(crate::specs::Conversions::converted_value))]
fn converted_value(
    alloc: Global,
    opened: u32,
    ty: Ty,
    first: u32,
    found: Found,
) -> Result<Boxed<Expr>, TypeFault>
    ensures { Judges (λ e. e) (converted_value opened ty first (Known found)) result }
{
    if let Found::Literal(z) = found {
        return literal_to(alloc, opened, ty, first, z);
    }
    let value = side(alloc, Rule::Conversion, opened, None, first, found)?;
    converted_to(alloc, opened, ty, value)
}

/// A conversion to an elementary type.
#[tactic(auto, using(crate::proofs::Faults::faults), unfolding(crate::specs::Conversions::converted))]
pub fn converted(
    alloc: Global,
    opened: u32,
    ty: Ty,
    first: u32,
    found: Found,
) -> Result<Found, TypeFault>
    ensures { Judges Known (converted opened ty first (Known found)) result }
{
    let expr = converted_value(alloc, opened, ty, first, found)?;
    Ok(Found::Value(None, ValueType::Elementary(ty), expr))
}

fn interface_from(opened: u32, interface: u32, v: Value) -> Result<Found, TypeFault>
    ensures { Judges Known (interface_from opened interface (Some v)) result }
{
    if becomes_interface(v.ty) {
        Ok(Found::Value(None, ValueType::Interface(interface), v.expr))
    } else {
        Err(TypeFault::Broken {
            rule: Rule::Conversion,
            at: opened,
        })
    }
}

/// A conversion to an interface.
#[tactic(auto, using(crate::proofs::Faults::faults), unfolding(crate::specs::Conversions::interface_of))]
pub fn interface_of(
    alloc: Global,
    opened: u32,
    interface: u32,
    first: u32,
    found: Found,
) -> Result<Found, TypeFault>
    ensures { Judges Known (interface_of opened interface first (Known found)) result }
{
    if let Found::Literal(_) = found {
        return Err(TypeFault::Broken {
            rule: Rule::Conversion,
            at: opened,
        });
    }
    let value = side(alloc, Rule::Conversion, opened, None, first, found)?;
    interface_from(opened, interface, value)
}
