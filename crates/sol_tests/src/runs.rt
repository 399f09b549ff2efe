// Worked runs: a contract of one uint8 variable.

ghost use Rattle.std.specs.Prelude.{IfOk, IsTrue};
ghost use Rattle.std.specs.List.{list_all};
ghost use Rattle.sol_eval.specs.Sized.{expr_sized, stmt_sized, fun_sized, build_sized, is_sized};

use chc_nums::{List, Name, NoMemory, Op, Ty};
use sol_core::{Build, Call, Cmp, Expr, Fun, Kind, PanicSites, Place, Program, Script, Site, Stmt};
use sol_eval::{Run, run};
use sol_probe::first_hits;
use sqlite_items::{Boxed, Items};
use std::alloc::Global;
use std::test::Fail;

const BYTE: Ty = Ty::Uint(1);

// x = x + n, whose overflow is a target.
#[tactic(auto, using(sol_eval::proofs::Sizes::sized))]
fn added(alloc: Global, n: i128, target: u32) -> Result<Stmt, NoMemory>
    ensures { IfOk result (λ s. IsTrue (stmt_sized s)) }
{
    let sites = PanicSites {
        under: None,
        over: Some(target),
        zero: None,
    };
    let x = Boxed::new(alloc, Expr::Scalar(0))?;
    let number = Boxed::new(alloc, Expr::Num(n, BYTE))?;
    Ok(Stmt::Set(
        Place::Scalar(0),
        Expr::Arith(Op::Add, BYTE, true, x, number, sites),
    ))
}

// x < n
#[tactic(auto, using(sol_eval::proofs::Sizes::sized))]
fn below(alloc: Global, n: i128) -> Result<Expr, NoMemory>
    ensures { IfOk result (λ e. IsTrue (expr_sized e)) }
{
    let x = Boxed::new(alloc, Expr::Scalar(0))?;
    let number = Boxed::new(alloc, Expr::Num(n, BYTE))?;
    Ok(Expr::Compare(Cmp::Lt, x, number))
}

fn fun(alloc: Global, body: List<Stmt>) -> Result<Fun, NoMemory>
    requires { IsTrue (list_all stmt_sized body) }
    ensures { IfOk result (λ f. IsTrue (fun_sized f)) }
{
    Ok(Fun {
        name: Name::from_string(String::from_str(alloc, "f")?),
        params: 0,
        locals: List::new(alloc),
        ret: None,
        view: false,
        body,
    })
}

#[tactic(auto, using(sol_eval::proofs::Sizes::sized))]
fn sum_body(alloc: Global) -> Result<List<Stmt>, NoMemory>
    ensures { IfOk result (λ b. IsTrue (list_all stmt_sized b)) }
{
    let mut body = List::new(alloc);
    body.push(added(alloc, 200, 1)?)?;
    Ok(body)
}

#[tactic(auto, using(sol_eval::proofs::Sizes::sized))]
fn asserted_body(alloc: Global) -> Result<List<Stmt>, NoMemory>
    ensures { IfOk result (λ b. IsTrue (list_all stmt_sized b)) }
{
    let mut body = List::new(alloc);
    body.push(Stmt::Set(Place::Scalar(0), Expr::Num(5, BYTE)))?;
    body.push(Stmt::Assert(below(alloc, 1)?, 0))?;
    Ok(body)
}

#[tactic(auto, using(sol_eval::proofs::Sizes::sized))]
fn required_body(alloc: Global) -> Result<List<Stmt>, NoMemory>
    ensures { IfOk result (λ b. IsTrue (list_all stmt_sized b)) }
{
    let mut body = List::new(alloc);
    body.push(Stmt::Set(Place::Scalar(0), Expr::Num(7, BYTE)))?;
    body.push(Stmt::Require(below(alloc, 1)?))?;
    Ok(body)
}

// Three functions: `x = x + 200;`, `x = 5; assert(x < 1);` and `x = 7; require(x < 1);`.
#[tactic(auto, using(sol_eval::proofs::Sizes::sized))]
fn functions(alloc: Global) -> Result<List<Fun>, NoMemory>
    ensures { IfOk result (λ fs. IsTrue (list_all fun_sized fs)) }
{
    let mut funs = List::new(alloc);
    funs.push(fun(alloc, sum_body(alloc)?)?)?;
    funs.push(fun(alloc, asserted_body(alloc)?)?)?;
    funs.push(fun(alloc, required_body(alloc)?)?)?;
    Ok(funs)
}

fn builds(alloc: Global) -> Result<List<Build>, NoMemory>
    ensures { IfOk result (λ bs. IsTrue (list_all build_sized bs)) }
{
    let mut builds = List::new(alloc);
    builds.push(Build {
        inits: List::new(alloc),
        fun: None,
        args: List::new(alloc),
    })?;
    Ok(builds)
}

// The assertion of the second function, and the sum of the first.
fn sites(alloc: Global) -> Result<List<Site>, NoMemory> {
    let mut sites = List::new(alloc);
    for kind in [Kind::Assert, Kind::Overflow] {
        sites.push(Site {
            kind,
            line: 1,
            col: 1,
        })?;
    }
    Ok(sites)
}

fn program(alloc: Global) -> Result<Program, NoMemory>
    ensures { IfOk result (λ p. IsTrue (is_sized p)) }
{
    Ok(Program {
        name: Name::from_string(String::from_str(alloc, "C")?),
        scalars: List::from_vec(Vec::from_slice(alloc, &[BYTE])?),
        maps: List::new(alloc),
        arrays: List::new(alloc),
        outs: List::new(alloc),
        params: List::new(alloc),
        builds: builds(alloc)?,
        doors: List::from_vec(Vec::from_slice(alloc, &[0, 1, 2])?),
        sites: sites(alloc)?,
        funs: functions(alloc)?,
    })
}

fn calls(alloc: Global, doors: &[u32]) -> Result<List<Call>, NoMemory> {
    let mut calls = List::new(alloc);
    for door in doors {
        calls.push(Call {
            fun: *door,
            sender: 1,
            args: List::new(alloc),
            replies: Items::from_vec(Vec::new(alloc)),
        })?;
    }
    Ok(calls)
}

// The run in which these functions are called, one after another.
fn run_of(alloc: Global, doors: &[u32], turns: u32) -> Result<Run, NoMemory> {
    let script = Script {
        sender: 1,
        args: List::new(alloc),
        calls: calls(alloc, doors)?,
    };
    let program = program(alloc)?;
    run(alloc, &program, &script, turns)
}

// The value of x in the end.
fn last(run: &Run) -> Option<i128> {
    match &run.state {
        Some(state) => state.scalars.get(0).copied(),
        None => None,
    }
}

fn is_run(
    alloc: Global,
    doors: &[u32],
    turns: u32,
    x: i128,
    hits: &[u32],
    cut: bool,
) -> Result<bool, NoMemory> {
    let run = run_of(alloc, doors, turns)?;
    Ok(last(&run) == Some(x) && run.hits.as_slice() == hits && run.cut == cut)
}

#[test]
fn runs_by_hand(rt: HostRuntime) -> Result<(), Fail> {
    for (doors, turns, x, hits, cut) in [
        // A sum past its type is a hit.
        (&[0u32, 0][..], 9, 200, &[1u32][..], false),
        // A call that reverts keeps its hits alone.
        (&[1][..], 9, 0, &[0][..], false),
        (&[2][..], 9, 0, &[][..], false),
        // A run in which a turn is missing is cut.
        (&[0, 2][..], 1, 200, &[][..], true),
        // Hits come in order and once.
        (&[0, 0, 1, 0][..], 9, 200, &[0, 1][..], false),
    ] {
        let is_right = is_run(rt.alloc(), doors, turns, x, hits, cut)?;
        assert!(rt; is_right);
    }
    Ok(())
}

// Whether a script is a call of a function by its deployer, 1.
fn is_call(script: &Script, door: u32) -> bool {
    match script.calls.as_slice() {
        [call] => script.sender == 1 && call.fun == door && call.sender == 1,
        _ => false,
    }
}

// One call makes the assertion false, and two are needed for a sum past its type.
fn has_first_hits(alloc: Global) -> Result<bool, NoMemory> {
    let program = program(alloc)?;
    let firsts = first_hits(alloc, &program)?;
    match firsts.as_slice() {
        [Some(script), None] => Ok(is_call(script, 1)),
        _ => Ok(false),
    }
}

#[test]
fn first_probes_by_hand(rt: HostRuntime) -> Result<(), Fail> {
    let is_right = has_first_hits(rt.alloc())?;
    assert!(rt; is_right);
    Ok(())
}
