// The units that a unit needs, each behind its bases: a search from the unit down, which leaves a unit once all of its bases
// were left.

ghost use Rattle.std.specs.Prelude.{◌≡◌, ◌<◌, ◌++◌, ◌∷◌, [], length, slice_get, option_map, Some, IfOk, OnOk};
ghost use Rattle.sol_names.specs.Schedule.{FindsSchedule};
ghost use Rattle.sol_names.specs.Search.{frames, Goes, Turns, Searching, Searches};
ghost use Rattle.sol_names.specs.Tails.{Below, AllBelow};

use chc_nums::{List, NoMemory};
use std::alloc::Global;

// Whether a unit was found, and whether all that it needs was.
#[derive(Clone, Copy)]
pub enum Visit {
    New,
    Open,
    Done,
}

// A unit of the stack, and those of its bases that are left.
#[derive(Clone, Copy)]
pub struct Frame<'a> {
    pub unit: u32,
    pub left: &'a [u32],
}

fn push_frame<'a>(stack: &mut Vec<Frame<'a>>, unit: u32, left: &'a [u32]) -> Result<(), NoMemory>
    ensures { OnOk result (frames stack.new.items ≡ frames stack.old.items ++ (unit, left.now) ∷ []) }
{
    stack.push(Frame { unit, left })?;
    Ok(())
}

// The next base of the unit on top: a new one is gone down to, one that is done is passed, and an open one closes a circle.
fn go<'a>(
    graph: &'a [List<u32>],
    stack: &mut Vec<Frame<'a>>,
    visits: &mut [Visit],
    unit: u32,
    left: &'a [u32],
    base: u32,
    more: &'a [u32],
) -> Result<bool, NoMemory>
    requires size { length visits.old ≡ length graph.now }
    requires base { base < length graph.now }
    requires left { left.now ≡ base ∷ more.now }
    ensures { IfOk result (λ b. Goes graph.now (frames stack.old.items) visits.old unit base more.now (slice_get visits.old base) b (frames stack.new.items) visits.new) }
{
    match visits[base as usize] {
        Visit::New => {
            visits[base as usize] = Visit::Open;
            push_frame(stack, unit, left)?;
            push_frame(stack, base, graph[base as usize].as_slice())?;
            Ok(true)
        }
        Visit::Open => Ok(false),
        Visit::Done => {
            push_frame(stack, unit, more)?;
            Ok(true)
        }
    }
}

fn turn<'a>(
    graph: &'a [List<u32>],
    stack: &mut Vec<Frame<'a>>,
    visits: &mut [Visit],
    done: &mut Vec<u32>,
    unit: u32,
    left: &'a [u32],
) -> Result<bool, NoMemory>
    requires size { length visits.old ≡ length graph.now }
    requires unit { unit < length graph.now }
    requires left { Below (length graph.now) left.now }
    ensures { IfOk result (λ b. Turns graph.now (frames stack.old.items) visits.old done.old.items unit left.now b (frames stack.new.items) visits.new done.new.items) }
{
    match left {
        [] => {
            visits[unit as usize] = Visit::Done;
            done.push(unit)?;
            Ok(true)
        }
        [base, more @ ..] => go(graph, stack, visits, unit, left, *base, more),
    }
}

// Goes on until the stack is empty. Whether no circle was found.
fn search<'a>(
    graph: &'a [List<u32>],
    stack: &mut Vec<Frame<'a>>,
    visits: &mut [Visit],
    done: &mut Vec<u32>,
    unit: u32,
) -> Result<bool, NoMemory>
    requires below { AllBelow (length graph.now) graph.now }
    requires unit { unit < length graph.now }
    requires searching { Searching graph.now unit (frames stack.old.items) visits.old done.old.items }
    ensures { IfOk result (λ b. Searches graph.now unit b done.new.items) }
{
    while let Some(frame) = stack.pop() {
        if !turn(graph, stack, visits, done, frame.unit, frame.left)? {
            return Ok(false);
        }
    }
    Ok(true)
}

// The bases of a unit.
pub fn bases_at(graph: &[List<u32>], unit: u32) -> Option<&[u32]>
    ensures { option_map (λ r. r.now) result ≡ slice_get graph.now unit }
{
    match graph.get(unit as usize) {
        Some(bases) => Some(bases.as_slice()),
        None => None,
    }
}

fn schedule_from<'a>(
    alloc: Global,
    graph: &'a [List<u32>],
    bases: &'a [u32],
    unit: u32,
) -> Result<Option<Vec<u32>>, NoMemory>
    requires below { AllBelow (length graph.now) graph.now }
    requires unit { unit < length graph.now }
    requires bases { slice_get graph.now unit ≡ Some bases.now }
    ensures { IfOk result (λ o. FindsSchedule graph.now unit (option_map (λ v. v.items) o)) }
{
    let mut visits = vec![in alloc; Visit::New; graph.len()]?;
    visits[unit as usize] = Visit::Open;
    let mut stack = Vec::new(alloc);
    push_frame(&mut stack, unit, bases)?;
    let mut done = Vec::new(alloc);
    if search(graph, &mut stack, &mut visits, &mut done, unit)? {
        Ok(Some(done))
    } else {
        Ok(None)
    }
}

// The units that a unit needs, each behind its bases, or none where a unit that it needs leads to itself.
pub fn schedule(alloc: Global, graph: &[List<u32>], unit: u32) -> Result<Option<Vec<u32>>, NoMemory>
    requires { AllBelow (length graph.now) graph.now }
    ensures { IfOk result (λ o. FindsSchedule graph.now unit (option_map (λ v. v.items) o)) }
{
    match bases_at(graph, unit) {
        None => Ok(None),
        Some(bases) => schedule_from(alloc, graph, bases, unit),
    }
}
