// Indices of mappings and arrays.

ghost use Rattle.std.specs.Prelude.{◌≡◌, Some, slice_get};
ghost use Rattle.sol_judged.specs.Settings.{setting};
ghost use Rattle.sol_judged.specs.Judged.{Judges};
ghost use Rattle.sol_judged.specs.Found.{Known};
ghost use Rattle.sol_judged.specs.Indices.{with_key, mapped, place_number, place_value, element, indexed};

use crate::fault::TypeFault;
use crate::findings::{Found, Value};
use crate::operands::{number_of, side, wanted};
use crate::rules::Rule;
use crate::tables::{MapType, Surroundings};
use crate::types::{ValueType, is_unsigned, program_type, smallest};
use sol_core::{Expr, Place};
use sqlite_items::{Boxed, Items};
use std::alloc::Global;

fn with_key(
    alloc: Global,
    map: &MapType,
    m: u32,
    keys: Items<Expr>,
    key: Boxed<Expr>,
) -> Result<Found, TypeFault>
    ensures { Judges Known (with_key map.now m keys key) result }
{
    let mut keys = keys;
    keys.push(key.into_inner())?;
    if keys.len() == map.keys.len() {
        Ok(Found::Place(None, map.value, Boxed::new(alloc, Place::Map(m, keys))?))
    } else {
        Ok(Found::Mapping(None, m, keys))
    }
}

#[tactic(auto, using(crate::proofs::Faults::faults))]
fn mapped(
    alloc: Global,
    map: &MapType,
    m: u32,
    keys: Items<Expr>,
    opened: u32,
    first: u32,
    index: Found,
) -> Result<Found, TypeFault>
    ensures { Judges Known (mapped (Some map.now) m keys opened first (Known index)) result }
{
    match map.keys.get(keys.len()) {
        None => Err(TypeFault::Broken {
            rule: Rule::Index,
            at: opened,
        }),
        Some(ty) => {
            let key = wanted(alloc, Rule::Index, opened, *ty, first, index)?;
            with_key(alloc, map, m, keys, key)
        }
    }
}

fn place_number(
    alloc: Global,
    first: u32,
    ty: Option<ValueType>,
    z: i128,
) -> Result<Value, TypeFault>
    ensures { Judges Some (place_number first ty z) result }
{
    match ty {
        None => Err(TypeFault::Broken {
            rule: Rule::LiteralType,
            at: first,
        }),
        Some(ty) => Ok(Value {
            ty,
            expr: number_of(alloc, z, program_type(ty))?,
        }),
    }
}

#[tactic(auto, unfolding(crate::specs::Indices::place_value))]
fn place_value(alloc: Global, opened: u32, first: u32, found: Found) -> Result<Value, TypeFault>
    ensures { Judges Some (place_value opened first (Known found)) result }
{
    if let Found::Literal(z) = found {
        return place_number(alloc, first, smallest(z), z);
    }
    side(alloc, Rule::Index, opened, None, first, found)
}

fn element(alloc: Global, a: u32, ty: ValueType, opened: u32, v: Value) -> Result<Found, TypeFault>
    ensures { Judges Known (element a ty opened (Some v)) result }
{
    if is_unsigned(v.ty) {
        let place = Boxed::new(alloc, Place::Elem(a, v.expr.into_inner(), opened))?;
        Ok(Found::Place(None, ty, place))
    } else {
        Err(TypeFault::Broken {
            rule: Rule::Index,
            at: opened,
        })
    }
}

/// `[ ]` after a mapping or an array.
#[tactic(auto, using(crate::proofs::Faults::faults), unfolding(crate::specs::Indices::indexed))]
pub fn indexed(
    alloc: Global,
    w: &Surroundings<'_>,
    opened: u32,
    base: Found,
    first: u32,
    index: Found,
) -> Result<Found, TypeFault>
    ensures { Judges Known (indexed (setting w.now) opened (Known base) first (Known index)) result }
{
    match base {
        Found::Mapping(_, m, keys) => match w.declared.maps.get(m as usize) {
            None => Err(TypeFault::Broken {
                rule: Rule::Index,
                at: opened,
            }),
            Some(map) => mapped(alloc, map, m, keys, opened, first, index),
        },
        Found::Array(_, a, ty) => {
            let v = place_value(alloc, opened, first, index)?;
            element(alloc, a, ty, opened, v)
        }
        _ => Err(TypeFault::Broken {
            rule: Rule::Index,
            at: opened,
        }),
    }
}
