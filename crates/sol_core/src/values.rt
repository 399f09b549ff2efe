// Types, and numbers in them.

ghost use Rattle.std.specs.Prelude.{◌≡◌, IsTrue};
ghost use Rattle.std.specs.List.{list_all};
ghost use Rattle.sol_core.specs.Values.{is_size, is_type, is_integer, is_unsigned, same_type, widens, in_range, is_sender, takes};

use chc_nums::{Ty, range};

fn is_size(size: u8) -> bool
    ensures { result ≡ is_size size }
{
    1 <= size && size <= 12
}

pub fn is_type(ty: Ty) -> bool
    ensures { result ≡ is_type ty }
{
    match ty {
        Ty::Bool | Ty::Addr => true,
        Ty::Uint(size) | Ty::Int(size) => is_size(size),
    }
}

pub fn are_types(types: &[Ty]) -> bool
    ensures { result ≡ list_all is_type types.now }
{
    for ty in types {
        if !is_type(*ty) {
            return false;
        }
    }
    true
}

pub fn is_integer(ty: Ty) -> bool
    ensures { result ≡ is_integer ty }
{
    match ty {
        Ty::Bool | Ty::Addr => false,
        Ty::Uint(size) | Ty::Int(size) => is_size(size),
    }
}

pub fn is_unsigned(ty: Ty) -> bool
    ensures { result ≡ is_unsigned ty }
{
    match ty {
        Ty::Bool | Ty::Addr | Ty::Int(_) => false,
        Ty::Uint(size) => is_size(size),
    }
}

pub fn same_type(a: Ty, b: Ty) -> bool
    ensures { result ≡ same_type a b }
{
    match (a, b) {
        (Ty::Bool, Ty::Bool) | (Ty::Addr, Ty::Addr) => true,
        (Ty::Uint(m), Ty::Uint(n)) | (Ty::Int(m), Ty::Int(n)) => m == n,
        _ => false,
    }
}

// Whether a value of the first type converts implicitly to the second.
pub fn widens(a: Ty, b: Ty) -> bool
    ensures { result ≡ widens a b }
{
    match (a, b) {
        (Ty::Bool, Ty::Bool) | (Ty::Addr, Ty::Addr) => true,
        (Ty::Uint(m), Ty::Uint(n)) | (Ty::Int(m), Ty::Int(n)) => m <= n,
        _ => false,
    }
}

#[tactic(auto, using(crate::proofs::Typed::types))]
pub fn in_range(ty: Ty, z: i128) -> bool
    requires { IsTrue (is_type ty) }
    ensures { result ≡ in_range ty z }
{
    let (least, greatest) = range(ty);
    !(z < least) && !(greatest < z)
}

/// Whether a number is an address that may call: from 1 to 2^96 - 1.
pub fn is_sender(z: i128) -> bool
    ensures { result ≡ is_sender z }
{
    1 <= z && z < 1 << 96
}

// Whether there are as many numbers as types, each in its type.
#[tactic(auto, using(crate::proofs::Typed::types))]
pub fn takes(types: &[Ty], numbers: &[i128]) -> bool
    requires { IsTrue (list_all is_type types.now) }
    ensures { result ≡ takes types.now numbers.now }
{
    let mut left = types;
    let mut rest = numbers;
    while let [ty, more_types @ ..] = left {
        let [number, more @ ..] = rest else {
            return false;
        };
        if !in_range(*ty, *number) {
            return false;
        }
        left = more_types;
        rest = more;
    }
    rest.is_empty()
}
