// State variables and constants.

ghost use Rattle.std.specs.Prelude.{◌≡◌, IfOk};
ghost use Rattle.std.specs.List.{list_any};
ghost use Rattle.sol_tree.specs.declared.types.Type.TheViews.{out-Type};
ghost use Rattle.sol_declared.specs.Specifiers.{is_constant};
ghost use Rattle.sol_judged.specs.Found.{blank};
ghost use Rattle.sol_judged.specs.Settings.{setting};
ghost use Rattle.sol_judged.specs.Types.{program_type};
ghost use Rattle.sol_unit.specs.Added.{Adds};
ghost use Rattle.sol_unit.specs.Reads.{Reads};
ghost use Rattle.sol_unit.specs.Variables.{read_double, read_single, read_array, read_value, read_behind_key, read_mapping, read_layer, read_state, added_scalar, added_array, keys_of, added_mapping, added_constant, added_value, added_state, variable};

use crate::added::{next, number};
use crate::reads::read_type;
use crate::tables::Tables;
use chc_nums::{List, NoMemory, Ty};
use sol_core::Expr;
use sol_declared::StateType;
use sol_judged::{Constant, MapType, Meaning, Surroundings, TypeFault, ValueType};
use sol_tree::{Type, Var, VarSpecifier};
use std::alloc::Global;

// ---- what a variable holds

#[tactic(auto, using(crate::proofs::Reading::reads))]
fn read_double(
    w: &Surroundings<'_>,
    key: ValueType,
    second: &Type,
    value: &Type,
) -> Result<StateType, TypeFault>
    ensures { Reads (read_double (setting w.now) key second.now value.now) result }
{
    let l = read_type(w, second)?;
    let v = read_type(w, value)?;
    Ok(StateType::Mapping(key, Some(l), v))
}

#[tactic(auto, using(crate::proofs::Reading::reads))]
fn read_single(w: &Surroundings<'_>, key: ValueType, value: &Type) -> Result<StateType, TypeFault>
    ensures { Reads (read_single (setting w.now) key value.now) result }
{
    let v = read_type(w, value)?;
    Ok(StateType::Mapping(key, None, v))
}

fn read_behind_key(w: &Surroundings<'_>, key: ValueType, ty: &Type) -> Result<StateType, TypeFault>
    ensures { Reads (read_behind_key (setting w.now) key ty.now (out-Type ty.now)) result }
{
    match ty {
        Type::Mapping {
            key: second,
            value,
            ..
        } => read_double(w, key, second.get(), value.get()),
        _ => read_single(w, key, ty),
    }
}

#[tactic(auto, using(crate::proofs::Reading::reads))]
fn read_mapping(w: &Surroundings<'_>, key: &Type, value: &Type) -> Result<StateType, TypeFault>
    ensures { Reads (read_mapping (setting w.now) key.now value.now) result }
{
    let k = read_type(w, key)?;
    read_behind_key(w, k, value)
}

#[tactic(auto, using(crate::proofs::Reading::reads))]
fn read_array(w: &Surroundings<'_>, element: &Type) -> Result<StateType, TypeFault>
    ensures { Reads (read_array (setting w.now) element.now) result }
{
    let t = read_type(w, element)?;
    Ok(StateType::Array(t))
}

#[tactic(auto, using(crate::proofs::Reading::reads))]
fn read_value(w: &Surroundings<'_>, ty: &Type) -> Result<StateType, TypeFault>
    ensures { Reads (read_value (setting w.now) ty.now) result }
{
    let t = read_type(w, ty)?;
    Ok(StateType::Value(t))
}

/// What a state variable of a declared type holds.
#[tactic(auto, unfolding(crate::specs::Variables::read_state))]
pub fn read_state(w: &Surroundings<'_>, ty: &Type) -> Result<StateType, TypeFault>
    ensures { Reads (read_state (setting w.now) ty.now) result }
{
    match ty {
        Type::Array { element, .. } => read_array(w, element.get()),
        Type::Mapping { key, value, .. } => read_mapping(w, key.get(), value.get()),
        _ => read_value(w, ty),
    }
}

// ---- what it adds

fn add_scalar(ty: ValueType, tables: &mut Tables) -> Result<Meaning, NoMemory>
    ensures { Adds (added_scalar ty tables.old) result tables.new }
{
    let scalar = tables.scalars;
    tables.scalars = next(scalar)?;
    Ok(Meaning::Scalar(scalar, ty))
}

fn add_array(ty: ValueType, tables: &mut Tables) -> Result<Meaning, NoMemory>
    ensures { Adds (added_array ty tables.old) result tables.new }
{
    let array = tables.arrays;
    tables.arrays = next(array)?;
    Ok(Meaning::Array(array, ty))
}

fn keys_of(
    alloc: Global,
    key: ValueType,
    second: Option<ValueType>,
) -> Result<List<ValueType>, NoMemory>
    ensures { IfOk result (λ ks. ks ≡ keys_of key second) }
{
    let mut keys = List::new(alloc);
    keys.push(key)?;
    if let Some(second) = second {
        keys.push(second)?;
    }
    Ok(keys)
}

fn add_mapping(
    keys: List<ValueType>,
    value: ValueType,
    tables: &mut Tables,
) -> Result<Meaning, NoMemory>
    ensures { Adds (added_mapping keys value tables.old) result tables.new }
{
    let mapping = number(tables.maps.len())?;
    tables.maps.push(MapType { keys, value })?;
    Ok(Meaning::Mapping(mapping))
}

fn add_pair_mapping(
    alloc: Global,
    key: ValueType,
    second: Option<ValueType>,
    value: ValueType,
    tables: &mut Tables,
) -> Result<Meaning, NoMemory>
    ensures { Adds (added_mapping (keys_of key second) value tables.old) result tables.new }
{
    let keys = keys_of(alloc, key, second)?;
    add_mapping(keys, value, tables)
}

// An expression of a type.
fn blank(ty: ValueType) -> Expr
    ensures { result ≡ blank ty }
{
    match ty {
        ValueType::Elementary(t) => Expr::Num(0, t),
        ValueType::Interface(_) => Expr::Num(0, Ty::Addr),
    }
}

fn add_constant(ty: ValueType, tables: &mut Tables) -> Result<Meaning, NoMemory>
    ensures { Adds (added_constant ty tables.old) result tables.new }
{
    let constant = number(tables.constants.len())?;
    let value = blank(ty);
    tables.constants.push(Constant { ty, value })?;
    Ok(Meaning::Constant(constant))
}

fn add_value(is_constant: bool, ty: ValueType, tables: &mut Tables) -> Result<Meaning, NoMemory>
    ensures { Adds (added_value is_constant ty tables.old) result tables.new }
{
    if is_constant {
        add_constant(ty, tables)
    } else {
        add_scalar(ty, tables)
    }
}

#[tactic(auto, unfolding(crate::specs::Variables::added_state))]
fn add_state(
    alloc: Global,
    is_constant: bool,
    ty: StateType,
    tables: &mut Tables,
) -> Result<Meaning, NoMemory>
    ensures { Adds (added_state is_constant ty tables.old) result tables.new }
{
    match ty {
        StateType::Value(t) => add_value(is_constant, t, tables),
        StateType::Array(t) => add_array(t, tables),
        StateType::Mapping(k, l, v) => add_pair_mapping(alloc, k, l, v, tables),
    }
}

fn is_constant(var: &Var) -> bool
    ensures { result ≡ list_any is_constant var.now.specifiers }
{
    var.specifiers
        .as_slice()
        .iter()
        .any(|mark| matches!(mark, VarSpecifier::Constant { .. }))
}

/// A state variable or a constant.
#[tactic(auto, unfolding(crate::specs::Variables::variable))]
pub fn add_variable(
    alloc: Global,
    w: &Surroundings<'_>,
    var: &Var,
    tables: &mut Tables,
) -> Result<Meaning, NoMemory>
    ensures { Adds (variable (setting w.now) var.now tables.old) result tables.new }
{
    match read_state(w, &var.ty) {
        Ok(ty) => add_state(alloc, is_constant(var), ty, tables),
        Err(TypeFault::Broken { rule, at }) => Ok(Meaning::Faulty(rule, at)),
        Err(TypeFault::NoMemory) => Err(NoMemory),
    }
}
