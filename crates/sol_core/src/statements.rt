// Whether statements have parts of the types that their places need.

ghost use Rattle.std.specs.Prelude.{◌≡◌, ◌&&◌, map, slice_get, Option};
ghost use Rattle.std.specs.List.{list_all};
ghost use Rattle.sol_core.specs.Values.{is_integer};
ghost use Rattle.sol_core.specs.TypesOf.{has_some, has, alike, are_sites, type_of};
ghost use Rattle.sol_core.specs.Statements.{types_of, place_type, is_local, may_write, stores, takes_value, is_call, is_out, is_stmt, are_stmts};

use crate::doors::params_of;
use crate::program::{Expr, PanicSites, Place, Program, Stmt};
use crate::types_of::{
    alike, are_sites, element_type, has, have, is_place, is_truth, map_type, return_of, type_at,
    type_of,
};
use crate::values::{is_integer, widens};
use chc_nums::Ty;

fn place_type(p: &Program, locals: &[Ty], place: &Place) -> Option<Ty>
    ensures { result ≡ place_type p.now locals.now place.now }
{
    match place {
        Place::Local(i) => type_at(locals, *i),
        Place::Scalar(i) => type_at(p.scalars.as_slice(), *i),
        Place::Map(m, keys) => map_type(p, locals, *m, keys.as_slice()),
        Place::Elem(a, index, site) => element_type(p, locals, *a, index, *site),
    }
}

fn may_write(view: bool, place: &Place) -> bool
    ensures { result ≡ may_write view place.now }
{
    match place {
        Place::Local(_) => true,
        Place::Scalar(_) | Place::Map(_, _) | Place::Elem(_, _, _) => !view,
    }
}

fn stores(value: Option<Ty>, place: Option<Ty>) -> bool
    ensures { result ≡ stores value place }
{
    match (value, place) {
        (Some(value), Some(place)) => widens(value, place),
        _ => false,
    }
}

// Whether what a call returns may go to a place, where it has one.
fn takes_value(
    p: &Program,
    locals: &[Ty],
    view: bool,
    place: &Option<Place>,
    ret: Option<Ty>,
) -> bool
    ensures { result ≡ takes_value p.now locals.now view place.now ret }
{
    match place {
        None => true,
        Some(place) => may_write(view, place) && stores(ret, place_type(p, locals, place)),
    }
}

fn is_call(
    p: &Program,
    locals: &[Ty],
    view: bool,
    place: &Option<Place>,
    f: u32,
    arguments: &[Expr],
) -> bool
    ensures { result ≡ is_call p.now locals.now view place.now (slice_get p.now.funs f) arguments.now }
{
    match p.funs.get(f as usize) {
        None => false,
        Some(fun) => {
            (!view || fun.view)
                && have(p, locals, params_of(fun), arguments)
                && takes_value(p, locals, view, place, return_of(fun))
        }
    }
}

fn is_out(
    p: &Program,
    locals: &[Ty],
    view: bool,
    place: &Option<Place>,
    f: u32,
    target: &Expr,
    arguments: &[Expr],
) -> bool
    ensures { result ≡ is_out p.now locals.now view place.now (slice_get p.now.outs f) target.now arguments.now }
{
    match p.outs.get(f as usize) {
        None => false,
        Some(fun) => {
            !view
                && has(Ty::Addr, type_of(p, locals, target))
                && have(p, locals, fun.params.as_slice(), arguments)
                && takes_value(p, locals, view, place, fun.ret)
        }
    }
}

fn have_types(p: &Program, locals: &[Ty], es: &[Expr]) -> bool
    ensures { result ≡ list_all has_some (types_of p.now locals.now es.now) }
{
    for e in es {
        if type_of(p, locals, e).is_none() {
            return false;
        }
    }
    true
}

fn is_assignment(p: &Program, locals: &[Ty], view: bool, place: &Place, value: &Expr) -> bool
    ensures { result ≡ (may_write view place.now && alike (place_type p.now locals.now place.now) (type_of p.now locals.now value.now)) }
{
    may_write(view, place) && alike(place_type(p, locals, place), type_of(p, locals, value))
}

fn is_step(
    p: &Program,
    locals: &[Ty],
    view: bool,
    place: &Place,
    ty: Ty,
    value: &Expr,
    panics: PanicSites,
) -> bool
    ensures { result ≡ (may_write view place.now && (is_integer ty && (has ty (place_type p.now locals.now place.now) && (has ty (type_of p.now locals.now value.now) && are_sites p.now panics)))) }
{
    may_write(view, place)
        && is_integer(ty)
        && has(ty, place_type(p, locals, place))
        && has(ty, type_of(p, locals, value))
        && are_sites(p, panics)
}

/// Whether a statement has parts of the types that their places need, in a function with some locals that is view or pure
/// or neither, within a loop or not.
#[cycle(is_stmt)]
#[tactic(auto, using(crate::proofs::Stating::stating))]
pub fn is_stmt(p: &Program, locals: &[Ty], view: bool, s: &Stmt, in_loop: bool) -> bool
    ensures { result ≡ is_stmt p.now locals.now view s.now in_loop }
{
    match s {
        Stmt::Set(place, value) => is_assignment(p, locals, view, place, value),
        Stmt::Step(place, _, ty, _, value, panics) => is_step(
            p, locals, view, place, *ty, value, *panics,
        ),
        Stmt::Push(a, value) => !view
            && alike(type_at(p.arrays.as_slice(), *a), type_of(p, locals, value)),
        Stmt::Pop(a, site) => !view
            && is_place(p.arrays.as_slice(), *a)
            && is_place(p.sites.as_slice(), *site),
        Stmt::Clear(a) => !view && is_place(p.arrays.as_slice(), *a),
        Stmt::Call(place, f, arguments) => is_call(
            p,
            locals,
            view,
            place,
            *f,
            arguments.as_slice(),
        ),
        Stmt::Out(place, f, target, arguments) => is_out(
            p,
            locals,
            view,
            place,
            *f,
            target,
            arguments.as_slice(),
        ),
        Stmt::If(c, yes, no) => {
            is_truth(p, locals, c)
                && are_stmts(p, locals, view, yes.as_slice(), in_loop)
                && are_stmts(p, locals, view, no.as_slice(), in_loop)
        }
        Stmt::While(c, body, step) => {
            is_truth(p, locals, c)
                && are_stmts(p, locals, view, body.as_slice(), true)
                && are_stmts(p, locals, view, step.as_slice(), true)
        }
        Stmt::DoWhile(body, c) => are_stmts(p, locals, view, body.as_slice(), true)
            && is_truth(p, locals, c),
        Stmt::Break | Stmt::Continue => in_loop,
        Stmt::Leave => true,
        Stmt::Scope(body) => are_stmts(p, locals, view, body.as_slice(), in_loop),
        Stmt::Require(e) => is_truth(p, locals, e),
        Stmt::Assert(e, site) => is_truth(p, locals, e) && is_place(p.sites.as_slice(), *site),
        Stmt::Revert(es) => have_types(p, locals, es.as_slice()),
        Stmt::Emit(es) => !view && have_types(p, locals, es.as_slice()),
    }
}

#[cycle(is_stmt)]
pub fn are_stmts(p: &Program, locals: &[Ty], view: bool, all: &[Stmt], in_loop: bool) -> bool
    ensures { result ≡ are_stmts p.now locals.now view all.now in_loop }
{
    for s in all {
        if !is_stmt(p, locals, view, s, in_loop) {
            return false;
        }
    }
    true
}
