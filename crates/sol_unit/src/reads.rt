// What declared types tell.

ghost use Rattle.std.specs.Prelude.{◌≡◌};
ghost use Rattle.sol_judged.specs.Settings.{setting};
ghost use Rattle.sol_stated.specs.ValueTypes.{named_type};
ghost use Rattle.sol_unit.specs.Reads.{Reads, of_typed, read_type, read_types, read_param, read_params, read_returned};
ghost use Rattle.sol_unit.specs.Parameters.{read_event_param, read_event_params};

use chc_nums::List;
use sol_judged::{Meaning, Rule, Surroundings, TypeFault, ValueType, meaning_of};
use sol_tree::{EventParam, Param, Type};
use std::alloc::Global;

fn read_name(at: u32, meaning: Option<Meaning>) -> Result<ValueType, TypeFault>
    ensures { Reads (of_typed (named_type at meaning).found) result }
{
    match meaning {
        Some(Meaning::Interface(unit)) => Ok(ValueType::Interface(unit)),
        Some(Meaning::Contract(_)) => Err(TypeFault::Broken {
            rule: Rule::DeclaredType,
            at,
        }),
        Some(Meaning::Faulty(rule, place)) => Err(TypeFault::Broken { rule, at: place }),
        _ => Err(TypeFault::Broken {
            rule: Rule::Naming,
            at,
        }),
    }
}

/// The type of values that a declared type is.
#[tactic(auto, unfolding(crate::specs::Reads::read_type, sol_stated::specs::ValueTypes::value_type))]
pub fn read_type(w: &Surroundings<'_>, ty: &Type) -> Result<ValueType, TypeFault>
    ensures { Reads (read_type (setting w.now) ty.now) result }
{
    match ty {
        Type::Elementary { ty, .. } => Ok(ValueType::Elementary(*ty)),
        Type::Named { at, name } => read_name(*at, meaning_of(w, name.as_str())),
        Type::Array { at, .. } => Err(TypeFault::Broken {
            rule: Rule::DeclaredType,
            at: *at,
        }),
        Type::Mapping { at, .. } => Err(TypeFault::Broken {
            rule: Rule::DeclaredType,
            at: *at,
        }),
    }
}

fn read_param(w: &Surroundings<'_>, param: &Param) -> Result<ValueType, TypeFault>
    ensures { Reads (read_param (setting w.now) param.now) result }
{
    read_type(w, &param.ty)
}

/// The types of parameters.
#[tactic(auto, using(crate::proofs::Reading::reads), unfolding(crate::specs::Reads::read_params))]
pub fn read_params(
    alloc: Global,
    w: &Surroundings<'_>,
    params: &[Param],
) -> Result<List<ValueType>, TypeFault>
    ensures { Reads (read_params (setting w.now) params.now) result }
{
    let mut types = List::new(alloc);
    for param in params {
        types.push(read_param(w, param)?)?;
    }
    Ok(types)
}

fn read_event_param(w: &Surroundings<'_>, param: &EventParam) -> Result<ValueType, TypeFault>
    ensures { Reads (read_event_param (setting w.now) param.now) result }
{
    read_type(w, &param.ty)
}

/// The types of an event's parameters.
#[tactic(auto, using(crate::proofs::Reading::reads), unfolding(crate::specs::Parameters::read_event_params))]
pub fn read_event_params(
    alloc: Global,
    w: &Surroundings<'_>,
    params: &[EventParam],
) -> Result<List<ValueType>, TypeFault>
    ensures { Reads (read_event_params (setting w.now) params.now) result }
{
    let mut types = List::new(alloc);
    for param in params {
        types.push(read_event_param(w, param)?)?;
    }
    Ok(types)
}

#[tactic(auto, using(crate::proofs::Reading::reads), unfolding(crate::specs::Reads::read_returned))]
/// The type of what is returned, if anything.
pub fn read_returned(
    w: &Surroundings<'_>,
    returned: &Option<Param>,
) -> Result<Option<ValueType>, TypeFault>
    ensures { Reads (read_returned (setting w.now) returned.now) result }
{
    match returned {
        None => Ok(None),
        Some(param) => Ok(Some(read_type(w, &param.ty)?)),
    }
}
