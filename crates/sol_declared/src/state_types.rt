// Types of state variables.

ghost use Rattle.std.specs.Prelude.{◌≡◌, Some};
ghost use Rattle.sol_tree.specs.declared.types.Type.TheViews.{out-Type};
ghost use Rattle.sol_judged.specs.Settings.{setting};
ghost use Rattle.sol_judged.specs.Judged.{Judges};
ghost use Rattle.sol_stated.specs.Contexts.{OfType};
ghost use Rattle.sol_declared.specs.StateTypes.{second_value, double_mapping, single_mapping, behind_key, mapping, array, value, state_layer, state_type};

use sol_judged::{Rule, Surroundings, TypeFault, ValueType};
use sol_stated::value_type;
use sol_tree::Type;

/// What a state variable holds.
#[derive(Clone, Copy, Debug)]
pub enum StateType {
    Value(ValueType),
    /// An array, with the type of its elements.
    Array(ValueType),
    /// A mapping, with its one or two key types and the type of its values.
    Mapping(ValueType, Option<ValueType>, ValueType),
}

// The value of a mapping behind two keys.
#[tactic(auto, using(sol_judged::proofs::Faults::faults), unfolding(sol_stated::specs::ValueTypes::value_type))]
fn second_value(w: &Surroundings<'_>, ty: &Type) -> Result<ValueType, TypeFault>
    ensures { Judges OfType (second_value (setting w.now) ty.now (out-Type ty.now)) result }
{
    match ty {
        Type::Mapping { at, .. } => Err(TypeFault::Broken {
            rule: Rule::DeclaredType,
            at: *at,
        }),
        _ => value_type(w, ty),
    }
}

#[tactic(auto, using(sol_judged::proofs::Faults::faults))]
fn double_mapping(
    w: &Surroundings<'_>,
    key: ValueType,
    second: &Type,
    value: &Type,
) -> Result<StateType, TypeFault>
    ensures { Judges Some (double_mapping (setting w.now) (OfType key) second.now value.now) result }
{
    let l = value_type(w, second)?;
    let v = second_value(w, value)?;
    Ok(StateType::Mapping(key, Some(l), v))
}

#[tactic(auto, using(sol_judged::proofs::Faults::faults))]
fn single_mapping(
    w: &Surroundings<'_>,
    key: ValueType,
    value: &Type,
) -> Result<StateType, TypeFault>
    ensures { Judges Some (single_mapping (setting w.now) (OfType key) value.now) result }
{
    let v = value_type(w, value)?;
    Ok(StateType::Mapping(key, None, v))
}

fn behind_key(w: &Surroundings<'_>, key: ValueType, ty: &Type) -> Result<StateType, TypeFault>
    ensures { Judges Some (behind_key (setting w.now) (OfType key) ty.now (out-Type ty.now)) result }
{
    match ty {
        Type::Mapping {
            key: second,
            value,
            ..
        } => double_mapping(w, key, second.get(), value.get()),
        _ => single_mapping(w, key, ty),
    }
}

#[tactic(auto, using(sol_judged::proofs::Faults::faults))]
fn mapping(w: &Surroundings<'_>, key: &Type, value: &Type) -> Result<StateType, TypeFault>
    ensures { Judges Some (mapping (setting w.now) key.now value.now) result }
{
    let k = value_type(w, key)?;
    behind_key(w, k, value)
}

#[tactic(auto, using(sol_judged::proofs::Faults::faults))]
fn array(w: &Surroundings<'_>, element: &Type) -> Result<StateType, TypeFault>
    ensures { Judges Some (array (setting w.now) element.now) result }
{
    let t = value_type(w, element)?;
    Ok(StateType::Array(t))
}

#[tactic(auto, using(sol_judged::proofs::Faults::faults))]
fn value(w: &Surroundings<'_>, ty: &Type) -> Result<StateType, TypeFault>
    ensures { Judges Some (value (setting w.now) ty.now) result }
{
    let t = value_type(w, ty)?;
    Ok(StateType::Value(t))
}

fn state_layer(w: &Surroundings<'_>, ty: &Type) -> Result<StateType, TypeFault>
    ensures { Judges Some (state_layer (setting w.now) ty.now (out-Type ty.now)) result }
{
    match ty {
        Type::Array { element, .. } => array(w, element.get()),
        Type::Mapping { key, value, .. } => mapping(w, key.get(), value.get()),
        _ => value(w, ty),
    }
}

/// What a state variable of a declared type holds. Parts that may not stand where they do break rule 2.
#[tactic(auto, using(sol_judged::proofs::Faults::faults), unfolding(crate::specs::StateTypes::state_type))]
pub fn state_type(w: &Surroundings<'_>, ty: &Type) -> Result<StateType, TypeFault>
    ensures { Judges Some (state_type (setting w.now) ty.now) result }
{
    state_layer(w, ty)
}
