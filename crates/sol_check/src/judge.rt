// The verdict on each target: its query under the pool's lemmas, and then the probes.

ghost use Rattle.std.specs.Prelude.{◌≡◌, ◌+◌, ◌<◌, ◌^◌, true, length, Some, slice_get, IfOk, OnOk, IfSome, IsTrue, option_copied};
ghost use Rattle.chc_form.specs.WellMade.{well_made};
ghost use Rattle.chc_ask.specs.declared.Asked.TheVariants as asked;
ghost use Rattle.chc_ask.specs.Asked.{asked_of};
ghost use Rattle.sol_eval.specs.Sized.{is_sized};
ghost use Rattle.sol_probe.specs.FirstHit.{IsFirstHit, AreFirstHits};
ghost use Rattle.sol_report.specs.declared.Verdict.TheVariants as verdict;
ghost use Rattle.sol_check.specs.Verdicts.{first_of_limit, limits};
ghost use Rattle.sol_check.specs.Found.{stop_by, IsProbed, VerdictFound, VerdictsFound};

use chc_ask::{Asked, Open, Why, ask};
use chc_form::{Lemma, Limits, Part, System};
use chc_houdini::RoundStop;
use chc_nums::{List, MAX_NODES, MAX_PIVOTS, MAX_TURNS, NoMemory};
use sol_core::{Program, Script};
use sol_probe::first_hits;
use sol_report::{Stop, Verdict};
use std::alloc::Global;

/// How far each question goes.
pub const LIMITS: Limits = Limits {
    pivots: MAX_PIVOTS,
    nodes: MAX_NODES,
};

// The first drop that came of a limit.
fn first_of_limit(drops: &[RoundStop]) -> Option<&RoundStop>
    ensures { option_copied result ≡ first_of_limit drops.now }
{
    for stop in drops {
        match &stop.left.why {
            Why::Point(_, _) => {}
            Why::Wide | Why::Pivots | Why::Nodes => return Some(stop),
        }
    }
    None
}

// Why the templates leave a target open.
fn stop_of(alloc: Global, drops: &[RoundStop], left: &Open) -> Result<Stop, NoMemory>
    ensures { IfOk result (λ s. s ≡ stop_by (first_of_limit drops.now) left.now) }
{
    match first_of_limit(drops) {
        Some(stop) => Ok(Stop::Round(stop.copy(alloc)?)),
        None => Ok(Stop::Target(left.copy(alloc)?)),
    }
}

// What is left of a target that no probe violates.
fn unknown(alloc: Global, drops: &[RoundStop], left: Open) -> Result<Verdict, NoMemory>
    ensures { IfOk result (λ v. v ≡ verdict.Unknown (stop_by (first_of_limit drops.now) left) left 0 0) }
{
    let templates = stop_of(alloc, drops, &left)?;
    Ok(Verdict::Unknown {
        templates,
        pool: left,
        seen: 0,
        tries: 0,
    })
}

// The first probe that violates a target, by a table that has one for each target.
fn first_in(
    alloc: Global,
    firsts: &[Option<Script>],
    target: u32,
) -> Result<Option<Script>, NoMemory>
    requires { target < length firsts.now }
    ensures { IfOk result (λ o. slice_get firsts.now target ≡ Some o) }
{
    match &firsts[target as usize] {
        None => Ok(None),
        Some(script) => Ok(Some(script.copy(alloc)?)),
    }
}

// The first probe that violates a target. The table is made when the first target asks for it.
#[tactic(auto, using(crate::proofs::Growing::probing))]
fn first_hit(
    alloc: Global,
    program: &Program,
    table: &mut Option<List<Option<Script>>>,
    target: u32,
) -> Result<Option<Script>, NoMemory>
    requires sized { IsTrue (is_sized program.now) }
    requires within { target < length program.now.sites }
    requires before { IfSome table.old (AreFirstHits program.now) }
    ensures first { IfOk result (λ o. IsFirstHit program.now target o) }
    ensures after { OnOk result (IfSome table.new (AreFirstHits program.now)) }
{
    match table {
        Some(firsts) => first_in(alloc, firsts.as_slice(), target),
        None => {
            let firsts = first_hits(alloc, program)?;
            let first = first_in(alloc, firsts.as_slice(), target)?;
            *table = Some(firsts);
            Ok(first)
        }
    }
}

// The verdict on a target whose query stays open: the first probe that violates it, or else unknown.
fn probed(
    alloc: Global,
    program: &Program,
    table: &mut Option<List<Option<Script>>>,
    drops: &[RoundStop],
    target: u32,
    left: Open,
) -> Result<Verdict, NoMemory>
    requires sized { IsTrue (is_sized program.now) }
    requires within { target < length program.now.sites }
    requires before { IfSome table.old (AreFirstHits program.now) }
    ensures probed { IfOk result (λ v. IsProbed program.now drops.now target left v) }
    ensures after { OnOk result (IfSome table.new (AreFirstHits program.now)) }
{
    match first_hit(alloc, program, table, target)? {
        Some(script) => Ok(Verdict::Unsafe {
            script,
            turns: MAX_TURNS,
        }),
        None => unknown(alloc, drops, left),
    }
}

// The verdict on a target.
fn verdict(
    alloc: Global,
    program: &Program,
    system: &System,
    drops: &[RoundStop],
    lemmas: &[Lemma],
    table: &mut Option<List<Option<Script>>>,
    target: u32,
) -> Result<Verdict, NoMemory>
    requires sized { IsTrue (is_sized program.now) }
    requires well { well_made system.now ≡ true }
    requires within { target < length program.now.sites }
    requires before { IfSome table.old (AreFirstHits program.now) }
    ensures found { IfOk result (λ v. VerdictFound program.now system.now drops.now lemmas.now target v) }
    ensures after { OnOk result (IfSome table.new (AreFirstHits program.now)) }
{
    match ask(alloc, system, Part::Query(target), None, lemmas, LIMITS)? {
        Asked::Refuted(multipliers) => Ok(Verdict::Safe(multipliers, lemmas.len() as u64)),
        Asked::Open(left) => probed(alloc, program, table, drops, target, left),
    }
}

// One verdict more, on the target after those that have one.
fn add_verdict(
    alloc: Global,
    program: &Program,
    system: &System,
    drops: &[RoundStop],
    lemmas: &[Lemma],
    table: &mut Option<List<Option<Script>>>,
    verdicts: &mut List<(u32, Verdict)>,
) -> Result<(), NoMemory>
    requires sized { IsTrue (is_sized program.now) }
    requires well { well_made system.now ≡ true }
    requires few { length program.now.sites < 2 ^ 32 }
    requires within { length verdicts.old < length program.now.sites }
    requires table { IfSome table.old (AreFirstHits program.now) }
    requires before { VerdictsFound program.now system.now drops.now lemmas.now 0 verdicts.old }
    ensures found { OnOk result (VerdictsFound program.now system.now drops.now lemmas.now 0 verdicts.new) }
    ensures count { OnOk result (length verdicts.new ≡ length verdicts.old + 1) }
    ensures table { OnOk result (IfSome table.new (AreFirstHits program.now)) }
{
    let target = verdicts.len() as u32;
    let verdict = verdict(alloc, program, system, drops, lemmas, table, target)?;
    verdicts.push((target, verdict))
}

/// The verdicts on all targets of a program, in order, by its rules and lemmas that solve them. The probes are made and
/// run once, and only where some target stays open.
pub fn judge(
    alloc: Global,
    program: &Program,
    system: &System,
    drops: &[RoundStop],
    lemmas: &[Lemma],
) -> Result<List<(u32, Verdict)>, NoMemory>
    requires sized { IsTrue (is_sized program.now) }
    requires few { length program.now.sites < 2 ^ 32 }
    requires well { well_made system.now ≡ true }
    ensures found { IfOk result (λ vs. VerdictsFound program.now system.now drops.now lemmas.now 0 vs) }
    ensures count { IfOk result (λ vs. length vs ≡ length program.now.sites) }
{
    let mut verdicts = List::new(alloc);
    let mut table = None;
    for _site in program.sites.as_slice() {
        add_verdict(
            alloc,
            program,
            system,
            drops,
            lemmas,
            &mut table,
            &mut verdicts,
        )?;
    }
    Ok(verdicts)
}
