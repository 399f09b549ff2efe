// Types of values, as they are declared.

ghost use Rattle.std.specs.Prelude.{◌≡◌};
ghost use Rattle.sol_judged.specs.Settings.{setting};
ghost use Rattle.sol_judged.specs.Judged.{Judges};
ghost use Rattle.sol_stated.specs.Contexts.{OfType, context, setting_in};
ghost use Rattle.sol_stated.specs.ValueTypes.{named_type, value_type};

use crate::context::{Around, surroundings};
use crate::scope::Scope;
use sol_judged::{Meaning, Rule, Surroundings, TypeFault, ValueType, meaning_of};
use sol_tree::Type;

fn named_type(at: u32, meaning: Option<Meaning>) -> Result<ValueType, TypeFault>
    ensures { Judges OfType (named_type at meaning) result }
{
    match meaning {
        Some(Meaning::Interface(unit)) => Ok(ValueType::Interface(unit)),
        Some(Meaning::Contract(_)) => Err(TypeFault::Broken {
            rule: Rule::DeclaredType,
            at,
        }),
        Some(Meaning::Faulty(rule, place)) => Err(TypeFault::Broken { rule, at: place }),
        _ => Err(TypeFault::Broken {
            rule: Rule::Naming,
            at,
        }),
    }
}

/// The type of values that a declared type is. A mapping, an array and a contract are none (rule 2), and a name that is no
/// interface in scope means none (rule 1).
#[tactic(auto, unfolding(crate::specs::ValueTypes::value_type))]
pub fn value_type(w: &Surroundings<'_>, ty: &Type) -> Result<ValueType, TypeFault>
    ensures { Judges OfType (value_type (setting w.now) ty.now) result }
{
    match ty {
        Type::Elementary { ty, .. } => Ok(ValueType::Elementary(*ty)),
        Type::Named { at, name } => named_type(*at, meaning_of(w, name.as_str())),
        Type::Array { at, .. } => Err(TypeFault::Broken {
            rule: Rule::DeclaredType,
            at: *at,
        }),
        Type::Mapping { at, .. } => Err(TypeFault::Broken {
            rule: Rule::DeclaredType,
            at: *at,
        }),
    }
}

/// The same of a type in a scope.
pub fn type_in(around: &Around<'_>, scope: &Scope, ty: &Type) -> Result<ValueType, TypeFault>
    ensures { Judges OfType (value_type (setting_in (context around.now) scope.now) ty.now) result }
{
    let w = surroundings(around, scope);
    value_type(&w, ty)
}
