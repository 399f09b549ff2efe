// Tests of types and sorts.

ghost use Rattle.std.specs.Prelude.{◌≡◌, slice_get};
ghost use Rattle.std.specs.List.{list_all};
ghost use Rattle.chc_form.specs.WellMade.{is_few, all_few, is_size, is_sized, same_type, same_types, is_sort, same_sort, both_same, is_number, has_keys, is_mapping};

use crate::system::Sort;
use chc_nums::{List, Ty};

pub fn is_few<T>(xs: &[T]) -> bool
    ensures { result ≡ is_few xs.now }
{
    xs.len() < 1 << 31
}

fn is_size(size: u8) -> bool
    ensures { result ≡ is_size size }
{
    0 < size && size < 13
}

fn is_sized(ty: Ty) -> bool
    ensures { result ≡ is_sized ty }
{
    match ty {
        Ty::Bool | Ty::Addr => true,
        Ty::Uint(size) | Ty::Int(size) => is_size(size),
    }
}

pub fn are_sized(types: &[Ty]) -> bool
    ensures { result ≡ list_all is_sized types.now }
{
    types.iter().all(|ty| is_sized(*ty))
}

pub fn same_type(t: Ty, u: Ty) -> bool
    ensures { result ≡ same_type t u }
{
    match t {
        Ty::Bool => matches!(u, Ty::Bool),
        Ty::Uint(m) => matches!(u, Ty::Uint(n) if m == n),
        Ty::Int(m) => matches!(u, Ty::Int(n) if m == n),
        Ty::Addr => matches!(u, Ty::Addr),
    }
}

fn same_types(types: &[Ty], others: &[Ty]) -> bool
    ensures { result ≡ same_types types.now others.now }
{
    let mut ts = types;
    let mut us = others;
    while let [t, more_ts @ ..] = ts {
        match us {
            [] => return false,
            [u, more_us @ ..] => {
                if !same_type(*t, *u) {
                    return false;
                }
                ts = more_ts;
                us = more_us;
            }
        }
    }
    us.is_empty()
}

fn is_sort(sort: &Sort) -> bool
    ensures { result ≡ is_sort sort.now }
{
    match sort {
        Sort::Whole(ty) => is_sized(*ty),
        Sort::Free => true,
        Sort::Map(keys, value) => {
            let keys = keys.as_slice();
            is_few(keys) && are_sized(keys) && is_sized(*value)
        }
    }
}

fn are_sorts(sorts: &[Sort]) -> bool
    ensures { result ≡ list_all is_sort sorts.now }
{
    sorts.iter().all(|sort| is_sort(sort))
}

pub fn are_few_sorts(sorts: &[Sort]) -> bool
    ensures { result ≡ all_few is_sort sorts.now }
{
    is_few(sorts) && are_sorts(sorts)
}

pub fn are_preds(preds: &[List<Sort>]) -> bool
    ensures { result ≡ list_all (all_few is_sort) preds.now }
{
    preds.iter().all(|sorts| are_few_sorts(sorts.as_slice()))
}

fn same_sort(r: &Sort, s: &Sort) -> bool
    ensures { result ≡ same_sort r.now s.now }
{
    match r {
        Sort::Whole(t) => matches!(s, Sort::Whole(u) if same_type(*t, *u)),
        Sort::Free => matches!(s, Sort::Free),
        Sort::Map(keys, value) => match s {
            Sort::Map(others, other) => {
                same_types(keys.as_slice(), others.as_slice()) && same_type(*value, *other)
            }
            _ => false,
        },
    }
}

// Whether a variable is there and has this sort.
pub fn has_sort(vars: &[Sort], x: u32, sort: &Sort) -> bool
    ensures { result ≡ both_same (slice_get vars.now x) (Some sort.now) }
{
    match vars.get(x as usize) {
        None => false,
        Some(own) => same_sort(own, sort),
    }
}

pub fn both_same(vars: &[Sort], x: u32, y: u32) -> bool
    ensures { result ≡ both_same (slice_get vars.now x) (slice_get vars.now y) }
{
    match vars.get(y as usize) {
        None => false,
        Some(sort) => has_sort(vars, x, sort),
    }
}

pub fn is_number(vars: &[Sort], x: u32) -> bool
    ensures { result ≡ is_number (slice_get vars.now x) }
{
    match vars.get(x as usize) {
        Some(Sort::Whole(_) | Sort::Free) => true,
        Some(Sort::Map(..)) | None => false,
    }
}

pub fn has_keys(vars: &[Sort], x: u32, count: usize) -> bool
    ensures { result ≡ has_keys (slice_get vars.now x) count }
{
    match vars.get(x as usize) {
        Some(Sort::Map(keys, _)) => keys.len() == count && 0 < count && count < 3,
        Some(Sort::Whole(_) | Sort::Free) | None => false,
    }
}

pub fn is_mapping(vars: &[Sort], x: u32) -> bool
    ensures { result ≡ is_mapping (slice_get vars.now x) }
{
    match vars.get(x as usize) {
        Some(Sort::Map(keys, _)) => 0 < keys.len() && keys.len() < 3,
        Some(Sort::Whole(_) | Sort::Free) | None => false,
    }
}
