// Expressions as operands, and as values of a type that is wanted.

ghost use Rattle.std.specs.Prelude.{◌≡◌, Some};
ghost use Rattle.std.specs.Option.{option_map};
ghost use Rattle.sol_core.specs.declared.program.Expr.{Num};
ghost use Rattle.sol_judged.specs.declared.fault.TypeFault.TheVariants as fault;
ghost use Rattle.sol_judged.specs.declared.rules.Rule.TheVariants as rule;
ghost use Rattle.sol_judged.specs.Judged.{Judges, Makes};
ghost use Rattle.sol_judged.specs.Found.{Known, blank, read, cast_to, cast, misnamed, returned, call_value};
ghost use Rattle.sol_judged.specs.Literals.{literal, literals};
ghost use Rattle.sol_judged.specs.Operands.{call_type, type_of, number, side, in_common, pair, unfit, number_in, widened, wanted};

use crate::fault::TypeFault;
use crate::findings::{Call, Found, Pair, Thing, Value};
use crate::rules::Rule;
use crate::types::{
    ValueType, adopted, common, fits, is_integer, program_type, same_elementary, smallest, widens,
};
use chc_nums::Ty;
use sol_core::{Expr, Place};
use sqlite_items::Boxed;
use std::alloc::Global;

/// A literal expression, or a fault where it has no number.
pub fn literal(first: u32, z: Option<i128>) -> Result<Found, TypeFault>
    ensures { Judges Known (literal first z) result }
{
    match z {
        None => Err(TypeFault::Broken {
            rule: Rule::LiteralExpression,
            at: first,
        }),
        Some(z) => Ok(Found::Literal(z)),
    }
}

/// The numbers of two literal expressions, where both are.
pub fn literals(a: &Found, b: &Found) -> Option<(i128, i128)>
    ensures { literals (Known a.now) (Known b.now) ≡ option_map Some result }
{
    match a {
        Found::Literal(x) => match b {
            Found::Literal(y) => Some((*x, *y)),
            _ => None,
        },
        _ => None,
    }
}

/// The type that a call returns.
pub fn call_type(call: &Call) -> Option<ValueType>
    ensures { result ≡ call_type call.now }
{
    match call {
        Call::Inner { ret, .. } => *ret,
        Call::Outer { ret, .. } => *ret,
        Call::Push { .. } => None,
        Call::Pop { .. } => None,
    }
}

/// The type of an operand.
pub fn type_of(found: &Found) -> Option<ValueType>
    ensures { result ≡ type_of (Known found.now) }
{
    match found {
        Found::Literal(z) => smallest(*z),
        Found::Value(_, ty, _) => Some(*ty),
        Found::Place(_, ty, _) => Some(*ty),
        Found::Call(_, call) => call_type(call.get()),
        _ => None,
    }
}

/// What reads a place.
pub fn read(alloc: Global, place: Place) -> Result<Boxed<Expr>, TypeFault>
    ensures { Makes (read place) result }
{
    match place {
        Place::Local(i) => Ok(Boxed::new(alloc, Expr::Local(i))?),
        Place::Scalar(i) => Ok(Boxed::new(alloc, Expr::Scalar(i))?),
        Place::Map(m, keys) => Ok(Boxed::new(alloc, Expr::MapAt(m, keys))?),
        Place::Elem(a, at, site) => {
            let at = Boxed::new(alloc, at)?;
            Ok(Boxed::new(alloc, Expr::ElemAt(a, at, site))?)
        }
    }
}

/// A number of a type.
pub fn number_of(alloc: Global, z: i128, ty: Ty) -> Result<Boxed<Expr>, TypeFault>
    ensures { Makes (Num z ty) result }
{
    Ok(Boxed::new(alloc, Expr::Num(z, ty))?)
}

fn number(
    alloc: Global,
    rule: Rule,
    at: u32,
    first: u32,
    z: i128,
    ty: Option<ValueType>,
) -> Result<Value, TypeFault>
    ensures { Judges Some (number rule at first z ty) result }
{
    match ty {
        None => Err(TypeFault::Broken {
            rule: Rule::LiteralType,
            at: first,
        }),
        Some(ty) => Ok(Value {
            ty,
            expr: number_of(alloc, z, program_type(ty))?,
        }),
    }
}

// A thing is no value.
fn misnamed(at: u32, thing: Thing) -> Result<Value, TypeFault>
    ensures { Judges Some (misnamed at thing) result }
{
    match thing {
        Thing::Function { is_member, .. } => if is_member {
            Err(TypeFault::Broken {
                rule: Rule::Naming,
                at,
            })
        } else {
            Err(TypeFault::Broken {
                rule: Rule::Naming,
                at,
            })
        },
        _ => Err(TypeFault::Broken {
            rule: Rule::Naming,
            at,
        }),
    }
}

fn returned(
    opened: u32,
    is_view: bool,
    ty: ValueType,
    expr: Boxed<Expr>,
) -> Result<Value, TypeFault>
    ensures { Judges Some (returned opened is_view ty expr) result }
{
    if is_view {
        Ok(Value { ty, expr })
    } else {
        Err(TypeFault::Broken {
            rule: Rule::CallPlace,
            at: opened,
        })
    }
}

fn misplaced(opened: u32) -> TypeFault
    ensures { result ≡ fault.Broken rule.CallPlace opened }
{
    TypeFault::Broken {
        rule: Rule::CallPlace,
        at: opened,
    }
}

// A call as an operand.
#[tactic(auto, using(crate::proofs::Faults::faults))]
fn call_value(alloc: Global, opened: u32, call: Call) -> Result<Value, TypeFault>
    ensures { Judges Some (call_value opened call) result }
{
    match call {
        Call::Inner {
            number,
            arguments,
            ret,
            is_view,
        } => match ret {
            None => Err(misplaced(opened)),
            Some(ty) => {
                let expr = Boxed::new(alloc, Expr::Call(number, arguments))?;
                returned(opened, is_view, ty, expr)
            }
        },
        Call::Outer { ret, .. } => match ret {
            None => Err(misplaced(opened)),
            Some(_) => Err(misplaced(opened)),
        },
        Call::Push { .. } => Err(misplaced(opened)),
        Call::Pop { .. } => Err(misplaced(opened)),
    }
}

/// An operand as a value, where a literal takes the other operand's type if it fits.
#[tactic(auto, unfolding(crate::specs::Operands::side))]
pub fn side(
    alloc: Global,
    rule: Rule,
    at: u32,
    other: Option<ValueType>,
    first: u32,
    found: Found,
) -> Result<Value, TypeFault>
    ensures { Judges Some (side rule at other first (Known found)) result }
{
    match found {
        Found::Literal(z) => number(alloc, rule, at, first, z, adopted(other, z)),
        Found::Value(_, ty, expr) => Ok(Value { ty, expr }),
        Found::Place(_, ty, place) => Ok(Value {
            ty,
            expr: read(alloc, place.into_inner())?,
        }),
        Found::Mapping(_, _, _) => Err(TypeFault::Broken { rule, at }),
        Found::Array(_, _, _) => Err(TypeFault::Broken { rule, at }),
        Found::Thing(name_at, thing) => misnamed(name_at, thing),
        Found::Outer(name_at, _, _) => Err(TypeFault::Broken {
            rule: Rule::Naming,
            at: name_at,
        }),
        Found::Call(opened, call) => call_value(alloc, opened, call.into_inner()),
    }
}

/// A value of a type of the program in another one.
pub fn cast(alloc: Global, from: Ty, to: Ty, expr: Boxed<Expr>) -> Result<Boxed<Expr>, TypeFault>
    ensures { Makes (cast from to expr) result }
{
    if same_elementary(from, to) {
        Ok(expr)
    } else {
        Ok(Boxed::new(alloc, Expr::Cast(from, to, expr))?)
    }
}

fn cast_to(
    alloc: Global,
    from: ValueType,
    to: ValueType,
    expr: Boxed<Expr>,
) -> Result<Boxed<Expr>, TypeFault>
    ensures { Makes (cast_to from to expr) result }
{
    cast(alloc, program_type(from), program_type(to), expr)
}

fn in_common(
    alloc: Global,
    rule: Rule,
    at: u32,
    integers: bool,
    ty: Option<ValueType>,
    x: Value,
    y: Value,
) -> Result<Pair, TypeFault>
    ensures { Judges Some (in_common rule at integers ty x y) result }
{
    match ty {
        None => Err(TypeFault::Broken { rule, at }),
        Some(ty) => {
            if !integers || is_integer(ty) {
                let left = cast_to(alloc, x.ty, ty, x.expr)?;
                let right = cast_to(alloc, y.ty, ty, y.expr)?;
                Ok(Pair { ty, left, right })
            } else {
                Err(TypeFault::Broken { rule, at })
            }
        }
    }
}

/// Two operands in their common type.
#[tactic(auto, using(crate::proofs::Faults::faults), unfolding(crate::specs::Operands::pair))]
pub fn pair(
    alloc: Global,
    rule: Rule,
    at: u32,
    integers: bool,
    left_first: u32,
    right_first: u32,
    a: Found,
    b: Found,
) -> Result<Pair, TypeFault>
    ensures { Judges Some (pair rule at integers left_first right_first (Known a) (Known b)) result }
{
    let left_type = type_of(&a);
    let right_type = type_of(&b);
    let x = side(alloc, rule, at, right_type, left_first, a)?;
    let y = side(alloc, rule, at, left_type, right_first, b)?;
    let ty = common(x.ty, y.ty);
    in_common(alloc, rule, at, integers, ty, x, y)
}

/// A literal doesn't fit the type that is wanted.
pub fn unfit(
    rule: Rule,
    at: u32,
    ty: ValueType,
    first: u32,
    smallest: Option<ValueType>,
) -> Result<Boxed<Expr>, TypeFault>
    ensures { Judges (λ e. e) (unfit rule at ty first smallest) result }
{
    match smallest {
        None => Err(TypeFault::Broken {
            rule: Rule::LiteralType,
            at: first,
        }),
        Some(_) => Err(TypeFault::Broken { rule, at }),
    }
}

fn number_in(
    alloc: Global,
    rule: Rule,
    at: u32,
    ty: ValueType,
    first: u32,
    z: i128,
) -> Result<Boxed<Expr>, TypeFault>
    ensures { Judges (λ e. e) (number_in rule at ty first z) result }
{
    if fits(ty, z) {
        Ok(number_of(alloc, z, program_type(ty))?)
    } else {
        unfit(rule, at, ty, first, smallest(z))
    }
}

fn widened(
    alloc: Global,
    rule: Rule,
    at: u32,
    ty: ValueType,
    value: Value,
) -> Result<Boxed<Expr>, TypeFault>
    ensures { Judges (λ e. e) (widened rule at ty (Some value)) result }
{
    if widens(value.ty, ty) {
        Ok(cast_to(alloc, value.ty, ty, value.expr)?)
    } else {
        Err(TypeFault::Broken { rule, at })
    }
}

/// An expression where a value of a type is wanted.
#[tactic(auto, using(crate::proofs::Faults::faults), unfolding(crate::specs::Operands::wanted))]
pub fn wanted(
    alloc: Global,
    rule: Rule,
    at: u32,
    ty: ValueType,
    first: u32,
    found: Found,
) -> Result<Boxed<Expr>, TypeFault>
    ensures { Judges (λ e. e) (wanted rule at ty first (Known found)) result }
{
    if let Found::Literal(z) = found {
        return number_in(alloc, rule, at, ty, first, z);
    }
    let value = side(alloc, rule, at, None, first, found)?;
    widened(alloc, rule, at, ty, value)
}
