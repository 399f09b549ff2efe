// The types of values, and which of them go together.

ghost use Rattle.std.specs.Prelude.{◌≡◌};
ghost use Rattle.sol_judged.specs.Types.{program_type, same_elementary, common_elementary, widens_elementary, converts_elementary, common, widens, converts, becomes_interface, is_size, is_integer_type, is_integer, is_unsigned, is_signed, is_bool};
ghost use Rattle.sol_judged.specs.LiteralTypes.{fits_elementary, fits, sized, smallest, adopted};

use chc_nums::{Ty, range};

/// The type of a value: an elementary one, or an interface by its place among the units of the file.
#[derive(Clone, Copy, Debug)]
pub enum ValueType {
    Elementary(Ty),
    Interface(u32),
}

/// What holds the values of a type in a program: an interface's are addresses.
pub fn program_type(ty: ValueType) -> Ty
    ensures { result ≡ program_type ty }
{
    match ty {
        ValueType::Elementary(t) => t,
        ValueType::Interface(_) => Ty::Addr,
    }
}

/// Whether two elementary types are the same.
pub fn same_elementary(a: Ty, b: Ty) -> bool
    ensures { result ≡ same_elementary a b }
{
    match a {
        Ty::Bool => matches!(b, Ty::Bool),
        Ty::Uint(m) => match b {
            Ty::Uint(n) => m == n,
            _ => false,
        },
        Ty::Int(m) => match b {
            Ty::Int(n) => m == n,
            _ => false,
        },
        Ty::Addr => matches!(b, Ty::Addr),
    }
}

fn common_elementary(a: Ty, b: Ty) -> Option<Ty>
    ensures { result ≡ common_elementary a b }
{
    match a {
        Ty::Bool => match b {
            Ty::Bool => Some(a),
            _ => None,
        },
        Ty::Uint(m) => match b {
            Ty::Uint(n) => Some(Ty::Uint(m.max(n))),
            _ => None,
        },
        Ty::Int(m) => match b {
            Ty::Int(n) => Some(Ty::Int(m.max(n))),
            _ => None,
        },
        Ty::Addr => match b {
            Ty::Addr => Some(a),
            _ => None,
        },
    }
}

fn widens_elementary(a: Ty, b: Ty) -> bool
    ensures { result ≡ widens_elementary a b }
{
    match a {
        Ty::Bool => matches!(b, Ty::Bool),
        Ty::Uint(m) => match b {
            Ty::Uint(n) => m <= n,
            _ => false,
        },
        Ty::Int(m) => match b {
            Ty::Int(n) => m <= n,
            _ => false,
        },
        Ty::Addr => matches!(b, Ty::Addr),
    }
}

fn converts_elementary(a: Ty, b: Ty) -> bool
    ensures { result ≡ converts_elementary a b }
{
    match a {
        Ty::Uint(m) => match b {
            Ty::Uint(_) => true,
            Ty::Int(n) => m == n,
            _ => false,
        },
        Ty::Int(m) => match b {
            Ty::Int(_) => true,
            Ty::Uint(n) => m == n,
            _ => false,
        },
        _ => false,
    }
}

/// The type that two operands have together.
pub fn common(a: ValueType, b: ValueType) -> Option<ValueType>
    ensures { result ≡ common a b }
{
    match a {
        ValueType::Elementary(s) => match b {
            ValueType::Elementary(t) => match common_elementary(s, t) {
                None => None,
                Some(both) => Some(ValueType::Elementary(both)),
            },
            ValueType::Interface(_) => None,
        },
        ValueType::Interface(i) => match b {
            ValueType::Elementary(_) => None,
            ValueType::Interface(j) => if i == j {
                Some(ValueType::Interface(i))
            } else {
                None
            },
        },
    }
}

/// Whether a value of the first type converts implicitly to the second.
pub fn widens(a: ValueType, b: ValueType) -> bool
    ensures { result ≡ widens a b }
{
    match a {
        ValueType::Elementary(s) => match b {
            ValueType::Elementary(t) => widens_elementary(s, t),
            ValueType::Interface(_) => false,
        },
        ValueType::Interface(i) => match b {
            ValueType::Elementary(_) => false,
            ValueType::Interface(j) => i == j,
        },
    }
}

/// Whether a value of a type may be converted to an elementary one.
pub fn converts(a: ValueType, b: Ty) -> bool
    ensures { result ≡ converts a b }
{
    match a {
        ValueType::Elementary(t) => converts_elementary(t, b),
        ValueType::Interface(_) => matches!(b, Ty::Addr),
    }
}

/// Whether a value of a type may be converted to an interface.
pub fn becomes_interface(ty: ValueType) -> bool
    ensures { result ≡ becomes_interface ty }
{
    match ty {
        ValueType::Elementary(t) => matches!(t, Ty::Addr),
        ValueType::Interface(_) => true,
    }
}

fn is_size(n: u8) -> bool
    ensures { result ≡ is_size n }
{
    0 < n && n < 13
}

/// Whether an elementary type is one of integers.
pub fn is_integer_type(ty: Ty) -> bool
    ensures { result ≡ is_integer_type ty }
{
    match ty {
        Ty::Uint(n) => is_size(n),
        Ty::Int(n) => is_size(n),
        _ => false,
    }
}

pub fn is_integer(ty: ValueType) -> bool
    ensures { result ≡ is_integer ty }
{
    match ty {
        ValueType::Elementary(t) => is_integer_type(t),
        ValueType::Interface(_) => false,
    }
}

pub fn is_unsigned(ty: ValueType) -> bool
    ensures { result ≡ is_unsigned ty }
{
    match ty {
        ValueType::Elementary(Ty::Uint(n)) => is_size(n),
        _ => false,
    }
}

pub fn is_signed(ty: ValueType) -> bool
    ensures { result ≡ is_signed ty }
{
    match ty {
        ValueType::Elementary(Ty::Int(n)) => is_size(n),
        _ => false,
    }
}

pub fn is_bool(ty: ValueType) -> bool
    ensures { result ≡ is_bool ty }
{
    match ty {
        ValueType::Elementary(Ty::Bool) => true,
        _ => false,
    }
}

// Whether a number is one of an integer type.
#[tactic(auto, unfolding(crate::specs::LiteralTypes::fits_elementary))]
pub fn fits_elementary(ty: Ty, z: i128) -> bool
    ensures { result ≡ fits_elementary ty z }
{
    if !is_integer_type(ty) {
        return false;
    }
    let (least, greatest) = range(ty);
    least <= z && z <= greatest
}

/// Whether a literal fits a type.
pub fn fits(ty: ValueType, z: i128) -> bool
    ensures { result ≡ fits ty z }
{
    match ty {
        ValueType::Elementary(t) => fits_elementary(t, z),
        ValueType::Interface(_) => false,
    }
}

fn sized(signed: bool, n: u8) -> Ty
    ensures { result ≡ sized signed n }
{
    if signed { Ty::Int(n) } else { Ty::Uint(n) }
}

/// The smallest type that holds a literal, the unsigned one where both would.
#[tactic(auto, using(crate::proofs::Sizes::sizes))]
pub fn smallest(z: i128) -> Option<ValueType>
    ensures { result ≡ smallest z }
{
    let signed = z < 0;
    for n in 1..13 {
        let ty = sized(signed, n);
        if fits_elementary(ty, z) {
            return Some(ValueType::Elementary(ty));
        }
    }
    None
}

/// The type that a literal takes beside an operand of a type.
pub fn adopted(other: Option<ValueType>, z: i128) -> Option<ValueType>
    ensures { result ≡ adopted other z }
{
    match other {
        None => smallest(z),
        Some(ty) => if fits(ty, z) { Some(ty) } else { smallest(z) },
    }
}
