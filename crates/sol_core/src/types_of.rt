// The types of expressions.

ghost use Rattle.std.specs.Prelude.{◌≡◌, ◌&&◌, [], map, slice_get, Some};
ghost use Rattle.sol_core.specs.Values.{is_type, in_range};
ghost use Rattle.sol_core.specs.TypesOf.{is_place, is_place_if, are_sites, has, have, alike, has_integer, has_unsigned, when, read_type, return_of, call_type, comparable, type_of};
ghost use Rattle.chc_nums.specs.declared.Ty.TheVariants as ty;

use crate::doors::params_of;
use crate::program::{Cmp, Expr, Fun, PanicSites, Program};
use crate::values::{in_range, is_integer, is_type, is_unsigned, same_type};
use chc_nums::Ty;

// Whether a number is a place in a list.
pub fn is_place<T>(all: &[T], i: u32) -> bool
    ensures { result ≡ is_place all.now i }
{
    (i as usize) < all.len()
}

pub fn is_place_if<T>(all: &[T], i: Option<u32>) -> bool
    ensures { result ≡ is_place_if all.now i }
{
    match i {
        None => true,
        Some(i) => is_place(all, i),
    }
}

pub fn type_at(types: &[Ty], i: u32) -> Option<Ty>
    ensures { result ≡ slice_get types.now i }
{
    match types.get(i as usize) {
        None => None,
        Some(ty) => Some(*ty),
    }
}

pub fn are_sites(p: &Program, panics: PanicSites) -> bool
    ensures { result ≡ are_sites p.now panics }
{
    let sites = p.sites.as_slice();
    is_place_if(sites, panics.under)
        && is_place_if(sites, panics.over)
        && is_place_if(sites, panics.zero)
}

pub fn has(ty: Ty, found: Option<Ty>) -> bool
    ensures { result ≡ has ty found }
{
    match found {
        None => false,
        Some(found) => same_type(found, ty),
    }
}

pub fn alike(a: Option<Ty>, b: Option<Ty>) -> bool
    ensures { result ≡ alike a b }
{
    match a {
        None => false,
        Some(ty) => has(ty, b),
    }
}

fn has_integer(found: Option<Ty>) -> bool
    ensures { result ≡ has_integer found }
{
    match found {
        None => false,
        Some(ty) => is_integer(ty),
    }
}

pub fn has_unsigned(found: Option<Ty>) -> bool
    ensures { result ≡ has_unsigned found }
{
    match found {
        None => false,
        Some(ty) => is_unsigned(ty),
    }
}

pub fn when(holds: bool, ty: Option<Ty>) -> Option<Ty>
    ensures { result ≡ when holds ty }
{
    if holds { ty } else { None }
}

/// The type of what a function returns.
pub fn return_of(fun: &Fun) -> Option<Ty>
    ensures { result ≡ return_of fun.now }
{
    match fun.ret {
        None => None,
        Some(i) => type_at(fun.locals.as_slice(), i),
    }
}

fn comparable(cmp: Cmp, a: Option<Ty>, b: Option<Ty>) -> bool
    ensures { result ≡ comparable cmp a b }
{
    match cmp {
        Cmp::Lt | Cmp::Le | Cmp::Gt | Cmp::Ge => has_integer(a) && alike(a, b),
        Cmp::Eq | Cmp::Ne => alike(a, b),
    }
}

fn number_type(z: i128, ty: Ty) -> Option<Ty>
    ensures { result ≡ when (is_type ty && in_range ty z) (Some ty) }
{
    if is_type(ty) && in_range(ty, z) {
        Some(ty)
    } else {
        None
    }
}

/// The type of an expression whose parts have the types that their places need, among some locals.
#[cycle(type_of)]
#[tactic(auto, using(crate::proofs::Typing::typing))]
pub fn type_of(p: &Program, locals: &[Ty], e: &Expr) -> Option<Ty>
    ensures { result ≡ type_of p.now locals.now e.now }
{
    match e {
        Expr::Num(z, ty) => number_type(*z, *ty),
        Expr::Local(i) => type_at(locals, *i),
        Expr::Scalar(i) => type_at(p.scalars.as_slice(), *i),
        Expr::MapAt(m, keys) => map_type(p, locals, *m, keys.as_slice()),
        Expr::ElemAt(a, e, site) => element_type(p, locals, *a, e.get(), *site),
        Expr::Len(a) => when(is_place(p.arrays.as_slice(), *a), Some(Ty::Uint(12))),
        Expr::Sender => Some(Ty::Addr),
        Expr::Arith(_, ty, _, a, b, panics) => {
            let parts = is_integer(*ty)
                && has(*ty, type_of(p, locals, a.get()))
                && has(*ty, type_of(p, locals, b.get()));
            when(parts && are_sites(p, *panics), Some(*ty))
        }
        Expr::Compare(cmp, a, b) => {
            let a = type_of(p, locals, a.get());
            when(
                comparable(*cmp, a, type_of(p, locals, b.get())),
                Some(Ty::Bool),
            )
        }
        Expr::Not(a) => when(is_truth(p, locals, a.get()), Some(Ty::Bool)),
        Expr::Both(a, b) | Expr::Either(a, b) => {
            when(
                is_truth(p, locals, a.get()) && is_truth(p, locals, b.get()),
                Some(Ty::Bool),
            )
        }
        Expr::Pick(c, a, b) => {
            let chosen = type_of(p, locals, a.get());
            when(
                is_truth(p, locals, c.get()) && alike(chosen, type_of(p, locals, b.get())),
                chosen,
            )
        }
        Expr::Cast(from, to, a) => {
            when(
                is_integer(*from) && is_integer(*to) && has(*from, type_of(p, locals, a.get())),
                Some(*to),
            )
        }
        Expr::Call(f, arguments) => called_type(p, locals, *f, arguments.as_slice()),
    }
}

#[cycle(type_of)]
pub fn is_truth(p: &Program, locals: &[Ty], e: &Expr) -> bool
    ensures { result ≡ has ty.Bool (type_of p.now locals.now e.now) }
{
    has(Ty::Bool, type_of(p, locals, e))
}

// Whether no expressions have some types, which are then none.
#[tactic(auto, using(crate::proofs::Typing::have_none))]
fn take_none(types: &[Ty]) -> bool
    ensures { result ≡ have types.now [] }
{
    match types {
        [] => true,
        [_, ..] => false,
    }
}

// Whether expressions have some types, in order, and are as many.
#[cycle(type_of)]
pub fn have(p: &Program, locals: &[Ty], types: &[Ty], es: &[Expr]) -> bool
    ensures { result ≡ have types.now (map (type_of p.now locals.now) es.now) }
{
    let mut rest = types;
    for e in es {
        let [ty, more @ ..] = rest else {
            return false;
        };
        if !has(*ty, type_of(p, locals, e)) {
            return false;
        }
        rest = more;
    }
    take_none(rest)
}

// The type of a mapping's value at some keys.
#[cycle(type_of)]
pub fn map_type(p: &Program, locals: &[Ty], m: u32, keys: &[Expr]) -> Option<Ty>
    ensures { result ≡ read_type (slice_get p.now.maps m) (map (type_of p.now locals.now) keys.now) }
{
    let map = p.maps.get(m as usize)?;
    when(have(p, locals, map.keys.as_slice(), keys), Some(map.val))
}

// The type of an array's element at an index.
#[cycle(type_of)]
pub fn element_type(p: &Program, locals: &[Ty], a: u32, index: &Expr, site: u32) -> Option<Ty>
    ensures { result ≡ when (has_unsigned (type_of p.now locals.now index.now) && is_place p.now.sites site) (slice_get p.now.arrays a) }
{
    let holds = has_unsigned(type_of(p, locals, index)) && is_place(p.sites.as_slice(), site);
    when(holds, type_at(p.arrays.as_slice(), a))
}

#[cycle(type_of)]
fn called_type(p: &Program, locals: &[Ty], f: u32, arguments: &[Expr]) -> Option<Ty>
    ensures { result ≡ call_type (slice_get p.now.funs f) (map (type_of p.now locals.now) arguments.now) }
{
    let fun = p.funs.get(f as usize)?;
    when(
        fun.view && have(p, locals, params_of(fun), arguments),
        return_of(fun),
    )
}
