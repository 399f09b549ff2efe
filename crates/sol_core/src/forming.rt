// Whether a program is formed.

ghost use Rattle.std.specs.Prelude.{◌≡◌, ◌<◌, ◌^◌, length, slice_get, Option, IsTrue};
ghost use Rattle.std.specs.List.{list_all};
ghost use Rattle.sol_core.specs.Values.{is_type};
ghost use Rattle.sol_core.specs.Formed.{is_map, is_type_if, is_out_fun, is_fun, converts_to, is_arg, are_args, is_constructor, is_constructed, is_build, begins_word, goes_on, is_word, named, has_door_named, is_door, are_doors, kind_number, comes_before, in_order, are_ordered, are_variables, are_functions, formed};

use crate::doors::params_of;
use crate::program::{Build, BuildArg, Fun, Kind, MapTy, OutFun, Program, Site};
use crate::statements::are_stmts;
use crate::types_of::{is_place_if, type_at};
use crate::values::{are_types, in_range, is_type, widens};
use chc_nums::{Name, Ty};

// ---- state variables and functions

fn is_map(map: &MapTy) -> bool
    ensures { result ≡ is_map map.now }
{
    let keys = map.keys.as_slice();
    1 <= keys.len() && keys.len() <= 2 && are_types(keys) && is_type(map.val)
}

fn are_maps(maps: &[MapTy]) -> bool
    ensures { result ≡ list_all is_map maps.now }
{
    for map in maps {
        if !is_map(map) {
            return false;
        }
    }
    true
}

fn is_type_if(ty: Option<Ty>) -> bool
    ensures { result ≡ is_type_if ty }
{
    match ty {
        None => true,
        Some(ty) => is_type(ty),
    }
}

fn is_out_fun(out: &OutFun) -> bool
    ensures { result ≡ is_out_fun out.now }
{
    are_types(out.params.as_slice()) && is_type_if(out.ret)
}

fn are_outs(outs: &[OutFun]) -> bool
    ensures { result ≡ list_all is_out_fun outs.now }
{
    for out in outs {
        if !is_out_fun(out) {
            return false;
        }
    }
    true
}

fn is_fun(p: &Program, fun: &Fun) -> bool
    ensures { result ≡ is_fun p.now fun.now }
{
    let locals = fun.locals.as_slice();
    are_types(locals)
        && fun.params as usize <= locals.len()
        && is_place_if(locals, fun.ret)
        && are_stmts(p, locals, fun.view, fun.body.as_slice(), false)
}

fn are_funs(p: &Program, funs: &[Fun]) -> bool
    ensures { result ≡ list_all (is_fun p.now) funs.now }
{
    for fun in funs {
        if !is_fun(p, fun) {
            return false;
        }
    }
    true
}

// ---- construction

fn converts_to(ty: Ty, found: Option<Ty>) -> bool
    ensures { result ≡ converts_to ty found }
{
    match found {
        None => false,
        Some(found) => widens(found, ty),
    }
}

fn is_arg(p: &Program, ty: Ty, arg: BuildArg) -> bool
    ensures { result ≡ is_arg p.now ty arg }
{
    match arg {
        BuildArg::Num(z) => is_type(ty) && in_range(ty, z),
        BuildArg::Param(i) => converts_to(ty, type_at(p.params.as_slice(), i)),
    }
}

fn are_args(p: &Program, types: &[Ty], args: &[BuildArg]) -> bool
    ensures { result ≡ are_args p.now types.now args.now }
{
    let mut left = types;
    let mut rest = args;
    while let [ty, more_types @ ..] = left {
        let [arg, more @ ..] = rest else {
            return false;
        };
        if !is_arg(p, *ty, *arg) {
            return false;
        }
        left = more_types;
        rest = more;
    }
    rest.is_empty()
}

fn is_constructed(p: &Program, fun: Option<u32>, args: &[BuildArg]) -> bool
    ensures { result ≡ is_constructed p.now fun args.now }
{
    match fun {
        None => args.is_empty(),
        Some(f) => match p.funs.get(f as usize) {
            None => false,
            Some(fun) => are_args(p, params_of(fun), args),
        },
    }
}

fn is_build(p: &Program, build: &Build) -> bool
    ensures { result ≡ is_build p.now build.now }
{
    are_stmts(p, &[], false, build.inits.as_slice(), false)
        && is_constructed(p, build.fun, build.args.as_slice())
}

fn are_builds(p: &Program, builds: &[Build]) -> bool
    ensures { result ≡ list_all (is_build p.now) builds.now }
{
    for build in builds {
        if !is_build(p, build) {
            return false;
        }
    }
    true
}

// ---- doors

fn begins_word(byte: u8) -> bool
    ensures { result ≡ begins_word byte }
{
    matches!(byte, b'A'..=b'Z' | b'a'..=b'z' | b'_' | b'$')
}

fn goes_on(byte: u8) -> bool
    ensures { result ≡ goes_on byte }
{
    begins_word(byte) || matches!(byte, b'0'..=b'9')
}

fn is_word(bytes: &[u8]) -> bool
    ensures { result ≡ is_word bytes.now }
{
    let [first, rest @ ..] = bytes else {
        return false;
    };
    begins_word(*first) && go_on(rest)
}

fn go_on(bytes: &[u8]) -> bool
    ensures { result ≡ list_all goes_on bytes.now }
{
    for byte in bytes {
        if !goes_on(*byte) {
            return false;
        }
    }
    true
}

fn is_named(p: &Program, fun: u32, name: &Name) -> bool
    ensures { result ≡ named name.now (slice_get p.now.funs fun) }
{
    match p.funs.get(fun as usize) {
        None => false,
        Some(fun) => fun.name.as_str() == name.as_str(),
    }
}

// Whether a function behind one of some doors has a name.
fn has_door_named(p: &Program, doors: &[u32], name: &Name) -> bool
    ensures { result ≡ has_door_named p.now doors.now name.now }
{
    let mut rest = doors;
    while let [door, more @ ..] = rest {
        if is_named(p, *door, name) {
            return true;
        }
        rest = more;
    }
    false
}

fn are_doors(p: &Program, doors: &[u32]) -> bool
    ensures { result ≡ are_doors p.now doors.now }
{
    let mut rest = doors;
    while let [door, more @ ..] = rest {
        let Some(fun) = p.funs.get(*door as usize) else {
            return false;
        };
        if !is_word(fun.name.as_str().as_bytes()) || has_door_named(p, more, &fun.name) {
            return false;
        }
        rest = more;
    }
    true
}

// ---- targets

fn kind_number(kind: Kind) -> u8
    ensures { result ≡ kind_number kind }
{
    match kind {
        Kind::Assert => 0,
        Kind::Underflow => 1,
        Kind::Overflow => 2,
        Kind::DivByZero => 3,
        Kind::OutOfBounds => 4,
        Kind::PopEmptyArray => 5,
    }
}

fn comes_before(a: Site, b: Site) -> bool
    ensures { result ≡ comes_before a b }
{
    a.line < b.line
        || (a.line == b.line
            && (a.col < b.col || (a.col == b.col && kind_number(a.kind) < kind_number(b.kind))))
}

fn are_ordered(sites: &[Site]) -> bool
    ensures { result ≡ are_ordered sites.now }
{
    let [first, rest @ ..] = sites else {
        return true;
    };
    let mut last = *first;
    for site in rest {
        if !comes_before(last, *site) {
            return false;
        }
        last = *site;
    }
    true
}

// ---- the program

fn are_variables(p: &Program) -> bool
    ensures { result ≡ are_variables p.now }
{
    are_types(p.scalars.as_slice())
        && are_maps(p.maps.as_slice())
        && are_types(p.arrays.as_slice())
        && are_types(p.params.as_slice())
}

fn are_functions(p: &Program) -> bool
    ensures { result ≡ are_functions p.now }
{
    are_funs(p, p.funs.as_slice())
        && are_outs(p.outs.as_slice())
        && are_builds(p, p.builds.as_slice())
}

/// Whether a program is formed: each number in it is a place in the list that it names, each part has the type that its
/// place needs, doors have different names, and targets stand in order. It takes no memory.
pub fn formed(p: &Program) -> bool
    ensures { result ≡ formed p.now }
{
    are_variables(p)
        && are_functions(p)
        && are_doors(p, p.doors.as_slice())
        && are_ordered(p.sites.as_slice())
        && p.sites.len() < 1 << 31
}
