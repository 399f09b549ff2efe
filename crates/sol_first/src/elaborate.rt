// The program of a contract.

ghost use Rattle.std.specs.Prelude.{◌≡◌, ◌+◌, ◌++◌, ◌∷◌, [], None, length, map, IfOk, OnOk};
ghost use Rattle.std.specs.List.{range_with_len};
ghost use Rattle.chc_nums.specs.declared.Ty.TheVariants as ty;
ghost use Rattle.sol_core.specs.declared.Expr.{Num};
ghost use Rattle.sol_core.specs.declared.Place.TheVariants as place;
ghost use Rattle.sol_core.specs.declared.Stmt.{Set, Require, Assert};
ghost use Rattle.sol_first.specs.Typed.{size_at};
ghost use Rattle.sol_first.specs.Elaborated.{type_at, sites_of_step, sites_of_steps, sites_of, cmp_of, condition, converted, over_site, under_site, shifted, stmt_of, stmts_of, fun_of, funs_of, program_of};

use crate::contract::{Contract, Function, Order, Step, Variable};
use chc_nums::{List, NoMemory, Op, Ty};
use sol_core::{Build, Cmp, Expr, Fun, Kind, PanicSites, Place, Program, Site, Stmt};
use sqlite_items::Boxed;
use std::alloc::Global;

/// The program of a contract: a function for each of its functions, all of them doors, and no constructor. Targets are
/// numbered in the order of the source. `NoMemory` also stands for 2^32 functions, and for 2^32 targets.
pub fn program(alloc: Global, contract: &Contract) -> Result<Program, NoMemory>
    ensures { IfOk result (λ p. p ≡ program_of contract.now) }
{
    let name = contract.name.copy(alloc)?;
    let scalars = types(alloc, contract.variables.as_slice())?;
    let funs = functions(
        alloc,
        contract.variables.as_slice(),
        contract.functions.as_slice(),
    )?;
    let builds = builds(alloc)?;
    let doors = doors(alloc, contract.functions.as_slice())?;
    let sites = sites(alloc, contract.functions.as_slice())?;
    Ok(Program {
        name,
        scalars,
        maps: List::new(alloc),
        arrays: List::new(alloc),
        funs,
        outs: List::new(alloc),
        params: List::new(alloc),
        builds,
        doors,
        sites,
    })
}

// The type of each variable.
fn types(alloc: Global, variables: &[Variable]) -> Result<List<Ty>, NoMemory>
    ensures { IfOk result (λ types. types ≡ map (λ v. ty.Uint v.size) variables.now) }
{
    let mut types = List::new(alloc);
    for variable in variables {
        types.push(Ty::Uint(variable.size))?;
    }
    Ok(types)
}

// No initialiser, and no constructor.
fn builds(alloc: Global) -> Result<List<Build>, NoMemory>
    ensures { IfOk result (λ builds. builds ≡ (record { inits = []; fun = None; args = [] }) ∷ []) }
{
    let mut builds = List::new(alloc);
    builds.push(Build {
        inits: List::new(alloc),
        fun: None,
        args: List::new(alloc),
    })?;
    Ok(builds)
}

// Every function, by its place.
fn doors(alloc: Global, functions: &[Function]) -> Result<List<u32>, NoMemory>
    ensures { IfOk result (λ doors. doors ≡ range_with_len 0 (length functions.now)) }
{
    let count = count(functions)?;
    places(alloc, count)
}

// The number of functions, of which there are fewer than 2^32.
fn count(functions: &[Function]) -> Result<u32, NoMemory>
    ensures { IfOk result (λ n. n ≡ length functions.now) }
{
    match u32::try_from(functions.len()) {
        Ok(n) => Ok(n),
        Err(_) => Err(NoMemory),
    }
}

// The numbers from 0 to below a count.
#[tactic(auto, using(crate::proofs::Places::ranges))]
fn places(alloc: Global, count: u32) -> Result<List<u32>, NoMemory>
    ensures { IfOk result (λ list. list ≡ range_with_len 0 count) }
{
    let mut list = List::new(alloc);
    for i in 0..count {
        list.push(i)?;
    }
    Ok(list)
}

/// The targets of functions, in the order of the source.
pub fn sites(alloc: Global, functions: &[Function]) -> Result<List<Site>, NoMemory>
    ensures { IfOk result (λ sites. sites ≡ sites_of functions.now) }
{
    let mut sites = List::new(alloc);
    for function in functions {
        add_sites(&mut sites, function.steps.as_slice())?;
    }
    Ok(sites)
}

// The targets of steps, after those that there are.
fn add_sites(sites: &mut List<Site>, steps: &[Step]) -> Result<(), NoMemory>
    ensures { OnOk result (sites.new ≡ sites.old ++ sites_of_steps steps.now) }
{
    for step in steps {
        add_site(sites, step)?;
    }
    Ok(())
}

// A step's target, if it has one.
fn add_site(sites: &mut List<Site>, step: &Step) -> Result<(), NoMemory>
    ensures { OnOk result (sites.new ≡ sites.old ++ sites_of_step step.now) }
{
    match step {
        Step::Require { .. } | Step::Put { .. } | Step::Move { .. } => Ok(()),
        Step::Assert { line, col, .. } => sites.push(Site {
            kind: Kind::Assert,
            line: *line,
            col: *col,
        }),
        Step::Add { line, col, .. } => sites.push(Site {
            kind: Kind::Overflow,
            line: *line,
            col: *col,
        }),
        Step::Subtract { line, col, .. } => sites.push(Site {
            kind: Kind::Underflow,
            line: *line,
            col: *col,
        }),
    }
}

// The functions, whose targets are numbered from 0 on.
fn functions(
    alloc: Global,
    variables: &[Variable],
    functions: &[Function],
) -> Result<List<Fun>, NoMemory>
    ensures { IfOk result (λ funs. funs ≡ funs_of variables.now 0 functions.now) }
{
    let mut funs = List::new(alloc);
    let mut next = 0;
    for function in functions {
        funs.push(fun(alloc, variables, &mut next, function)?)?;
    }
    Ok(funs)
}

// A function whose targets are numbered from a first one on, which becomes the one after its last.
fn fun(
    alloc: Global,
    variables: &[Variable],
    next: &mut u32,
    function: &Function,
) -> Result<Fun, NoMemory>
    ensures fun { IfOk result (λ f. f ≡ fun_of variables.now next.old function.now) }
    ensures next { OnOk result (next.new ≡ next.old + length (sites_of_steps function.now.steps)) }
{
    let name = function.name.copy(alloc)?;
    let body = body(alloc, variables, next, function.steps.as_slice())?;
    Ok(Fun {
        name,
        params: 0,
        locals: List::new(alloc),
        ret: None,
        view: false,
        body,
    })
}

// The statements of steps, numbered likewise.
fn body(
    alloc: Global,
    variables: &[Variable],
    next: &mut u32,
    steps: &[Step],
) -> Result<List<Stmt>, NoMemory>
    ensures body { IfOk result (λ ss. ss ≡ stmts_of variables.now next.old steps.now) }
    ensures next { OnOk result (next.new ≡ next.old + length (sites_of_steps steps.now)) }
{
    let mut body = List::new(alloc);
    for step in steps {
        body.push(stmt(alloc, variables, *next, step)?)?;
        take_site(next, step)?;
    }
    Ok(body)
}

// The number after that of the step's target, where it has one.
fn take_site(next: &mut u32, step: &Step) -> Result<(), NoMemory>
    ensures { OnOk result (next.new ≡ next.old + length (sites_of_step step.now)) }
{
    match step {
        Step::Require { .. } | Step::Put { .. } | Step::Move { .. } => Ok(()),
        Step::Assert { .. } | Step::Add { .. } | Step::Subtract { .. } => {
            match next.checked_add(1) {
                Some(after) => {
                    *next = after;
                    Ok(())
                }
                None => Err(NoMemory),
            }
        }
    }
}

// The statement of a step; its target, if it has one, is the one of this number.
fn stmt(alloc: Global, variables: &[Variable], site: u32, step: &Step) -> Result<Stmt, NoMemory>
    ensures { IfOk result (λ s. s ≡ stmt_of variables.now site step.now) }
{
    match *step {
        Step::Require {
            variable,
            order,
            number,
        } => required(alloc, variables, variable, order, number),
        Step::Assert {
            variable,
            order,
            number,
            ..
        } => asserted(alloc, variables, variable, order, number, site),
        Step::Put { to, number } => Ok(put(variables, to, number)),
        Step::Move { to, from } => moved(alloc, variables, to, from, Expr::Scalar(from)),
        Step::Add {
            to,
            from,
            number,
            ..
        } => changed(alloc, variables, Op::Add, to, from, number, over_site(site)),
        Step::Subtract {
            to,
            from,
            number,
            ..
        } => changed(
            alloc,
            variables,
            Op::Sub,
            to,
            from,
            number,
            under_site(site),
        ),
    }
}

// A condition that is required, and one that is asserted, whose target is the one of this number.
fn required(
    alloc: Global,
    variables: &[Variable],
    i: u32,
    order: Order,
    n: i128,
) -> Result<Stmt, NoMemory>
    ensures { IfOk result (λ s. s ≡ Require (condition variables.now i order n)) }
{
    Ok(Stmt::Require(condition(alloc, variables, i, order, n)?))
}

fn asserted(
    alloc: Global,
    variables: &[Variable],
    i: u32,
    order: Order,
    n: i128,
    site: u32,
) -> Result<Stmt, NoMemory>
    ensures { IfOk result (λ s. s ≡ Assert (condition variables.now i order n) site) }
{
    Ok(Stmt::Assert(condition(alloc, variables, i, order, n)?, site))
}

// A number, assigned.
fn put(variables: &[Variable], to: u32, n: i128) -> Stmt
    ensures { result ≡ Set (place.Scalar to) (Num n (type_at variables.now to)) }
{
    Stmt::Set(Place::Scalar(to), Expr::Num(n, type_at(variables, to)))
}

// An expression of one variable's type, assigned to another variable.
fn moved(
    alloc: Global,
    variables: &[Variable],
    to: u32,
    from: u32,
    e: Expr,
) -> Result<Stmt, NoMemory>
    ensures { IfOk result (λ s. s ≡ Set (place.Scalar to) (converted variables.now from to e)) }
{
    let value = converted(alloc, variables, from, to, e)?;
    Ok(Stmt::Set(Place::Scalar(to), value))
}

// A sum or a difference, assigned.
fn changed(
    alloc: Global,
    variables: &[Variable],
    op: Op,
    to: u32,
    from: u32,
    n: i128,
    panics: PanicSites,
) -> Result<Stmt, NoMemory>
    ensures { IfOk result (λ s. s ≡ Set (place.Scalar to) (converted variables.now from to (shifted variables.now op from n panics))) }
{
    let value = shifted(alloc, variables, op, from, n, panics)?;
    moved(alloc, variables, to, from, value)
}

// A variable's size in bytes, or 0 where there is no such variable.
fn size_at(variables: &[Variable], i: u32) -> u8
    ensures { result ≡ size_at variables.now i }
{
    match variables.get(i as usize) {
        Some(variable) => variable.size,
        None => 0,
    }
}

fn type_at(variables: &[Variable], i: u32) -> Ty
    ensures { result ≡ type_at variables.now i }
{
    Ty::Uint(size_at(variables, i))
}

fn cmp_of(order: Order) -> Cmp
    ensures { result ≡ cmp_of order }
{
    match order {
        Order::Less => Cmp::Lt,
        Order::LessEqual => Cmp::Le,
        Order::Greater => Cmp::Gt,
        Order::GreaterEqual => Cmp::Ge,
    }
}

fn over_site(site: u32) -> PanicSites
    ensures { result ≡ over_site site }
{
    PanicSites {
        under: None,
        over: Some(site),
        zero: None,
    }
}

fn under_site(site: u32) -> PanicSites
    ensures { result ≡ under_site site }
{
    PanicSites {
        under: Some(site),
        over: None,
        zero: None,
    }
}

// A variable compared with a number of its type.
fn condition(
    alloc: Global,
    variables: &[Variable],
    i: u32,
    order: Order,
    n: i128,
) -> Result<Expr, NoMemory>
    ensures { IfOk result (λ e. e ≡ condition variables.now i order n) }
{
    let variable = Boxed::new(alloc, Expr::Scalar(i))?;
    let number = Boxed::new(alloc, Expr::Num(n, type_at(variables, i)))?;
    Ok(Expr::Compare(cmp_of(order), variable, number))
}

// An expression of one variable's type where another's is wanted.
fn converted(
    alloc: Global,
    variables: &[Variable],
    from: u32,
    to: u32,
    e: Expr,
) -> Result<Expr, NoMemory>
    ensures { IfOk result (λ c. c ≡ converted variables.now from to e) }
{
    if size_at(variables, from) == size_at(variables, to) {
        Ok(e)
    } else {
        Ok(Expr::Cast(
            type_at(variables, from),
            type_at(variables, to),
            Boxed::new(alloc, e)?,
        ))
    }
}

// A variable and a number of its type, added or subtracted with a check.
fn shifted(
    alloc: Global,
    variables: &[Variable],
    op: Op,
    from: u32,
    n: i128,
    panics: PanicSites,
) -> Result<Expr, NoMemory>
    ensures { IfOk result (λ e. e ≡ shifted variables.now op from n panics) }
{
    let ty = type_at(variables, from);
    let variable = Boxed::new(alloc, Expr::Scalar(from))?;
    let number = Boxed::new(alloc, Expr::Num(n, ty))?;
    Ok(Expr::Arith(op, ty, true, variable, number, panics))
}
