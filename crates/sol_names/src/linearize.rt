// The order of a unit from the bases of all units: those of the units that it needs become known, each after those of its
// bases. An order that nothing needs any more is let go of, and a unit with one base takes over the base's.

ghost use Rattle.std.specs.Prelude.{◌≡◌, ◌<◌, ◌+◌, ◌∷◌, [], length, slice_get, slice_index, IfOk, OnOk, None, Some, option_map, ℕ};
ghost use Rattle.chc_nums.specs.Values.{with_value};
ghost use Rattle.sol_names.specs.Schedule.{IsSchedule};
ghost use Rattle.sol_names.specs.Tails.{views, Below, AllBelow, times};
ghost use Rattle.sol_names.specs.Known.{IsOrder, known, to_merge, IsNext, AreRight, KnownBelow, bases_of, uses, Forgets, Finds, Settles, SettlesAll};

use crate::merge::{count_all, merged};
use crate::schedule::{bases_at, schedule};
use chc_nums::{List, NoMemory};
use std::alloc::Global;

fn known(orders: &[Option<List<u32>>], unit: u32) -> Option<&[u32]>
    ensures { option_map (λ r. r.now) result ≡ known orders.now unit }
{
    match orders.get(unit as usize) {
        Some(Some(order)) => Some(order.as_slice()),
        _ => None,
    }
}

// The orders of bases, and then the bases themselves.
fn to_merge<'a>(
    alloc: Global,
    orders: &'a [Option<List<u32>>],
    bases: &'a [u32],
) -> Result<Option<Vec<&'a [u32]>>, NoMemory>
    ensures { IfOk result (λ o. option_map (λ v. views v.items) o ≡ to_merge orders.now bases.now) }
{
    let mut lists = Vec::new(alloc);
    let mut rest = bases;
    while let [base, more @ ..] = rest {
        let Some(order) = known(orders, *base) else {
            return Ok(None);
        };
        lists.push(order)?;
        rest = more;
    }
    lists.push(bases)?;
    Ok(Some(lists))
}

fn next_order(
    alloc: Global,
    orders: &[Option<List<u32>>],
    bases: &[u32],
    unit: u32,
) -> Result<Option<List<u32>>, NoMemory>
    requires orders { KnownBelow (length orders.now) orders.now }
    requires bases { Below (length orders.now) bases.now }
    ensures { IfOk result (IsNext orders.now bases.now unit) }
{
    let Some(lists) = to_merge(alloc, orders, bases)? else {
        return Ok(None);
    };
    let Some(rest) = merged(alloc, lists, orders.len())? else {
        return Ok(None);
    };
    let mut order = rest.into_vec();
    order.insert(0, unit)?;
    Ok(Some(List::from_vec(order)))
}

fn copied(
    alloc: Global,
    orders: &[Option<List<u32>>],
    unit: u32,
) -> Result<Option<List<u32>>, NoMemory>
    ensures { IfOk result (λ o. o ≡ known orders.now unit) }
{
    match known(orders, unit) {
        None => Ok(None),
        Some(order) => Ok(Some(List::from_vec(Vec::from_slice(alloc, order)?))),
    }
}

// The order of a base: it is moved where nothing else uses it.
fn base_order(
    alloc: Global,
    orders: &mut [Option<List<u32>>],
    used: &[u32],
    base: u32,
) -> Result<Option<List<u32>>, NoMemory>
    requires base { base < length orders.old }
    requires used { length used.now ≡ length orders.old }
    ensures size { length orders.new ≡ length orders.old }
    ensures order { IfOk result (λ o. o ≡ known orders.old base) }
    ensures kept { OnOk result (Forgets used.now (base ∷ []) orders.old orders.new) }
{
    if used[base as usize] == 1 {
        Ok(orders[base as usize].take())
    } else {
        copied(alloc, orders, base)
    }
}

// The order of a unit with one base.
fn order_over(
    alloc: Global,
    orders: &mut [Option<List<u32>>],
    used: &[u32],
    base: u32,
    unit: u32,
) -> Result<Option<List<u32>>, NoMemory>
    requires base { base < length orders.old }
    requires used { length used.now ≡ length orders.old }
    ensures size { length orders.new ≡ length orders.old }
    ensures order { IfOk result (λ o. o ≡ with_value (known orders.old base) (λ p. Some (unit ∷ p))) }
    ensures kept { OnOk result (Forgets used.now (base ∷ []) orders.old orders.new) }
{
    match base_order(alloc, orders, used, base)? {
        None => Ok(None),
        Some(order) => {
            let mut order = order.into_vec();
            order.insert(0, unit)?;
            Ok(Some(List::from_vec(order)))
        }
    }
}

// The order of a unit with these bases.
fn order_of(
    alloc: Global,
    graph: &[List<u32>],
    orders: &mut [Option<List<u32>>],
    used: &[u32],
    bases: &[u32],
    unit: u32,
) -> Result<Option<List<u32>>, NoMemory>
    requires size { length orders.old ≡ length graph.now }
    requires used { length used.now ≡ length graph.now }
    requires below { AllBelow (length graph.now) graph.now }
    requires right { AreRight graph.now orders.old }
    requires bases { slice_get graph.now unit ≡ Some bases.now }
    ensures size { length orders.new ≡ length orders.old }
    ensures order { IfOk result (Finds graph.now orders.old bases.now unit) }
    ensures kept { OnOk result (Forgets used.now bases.now orders.old orders.new) }
{
    match bases {
        [base] => order_over(alloc, orders, used, *base, unit),
        _ => next_order(alloc, orders, bases, unit),
    }
}

// Lets go of the order of a base that nothing else uses.
fn forget_one(orders: &mut [Option<List<u32>>], used: &[u32], base: u32)
    requires base { base < length orders.old }
    requires used { length used.now ≡ length orders.old }
    ensures size { length orders.new ≡ length orders.old }
    ensures kept { Forgets used.now (base ∷ []) orders.old orders.new }
{
    if used[base as usize] == 1 {
        orders[base as usize] = None;
    }
}

fn forget(orders: &mut [Option<List<u32>>], used: &[u32], bases: &[u32])
    requires bases { Below (length orders.old) bases.now }
    requires used { length used.now ≡ length orders.old }
    ensures size { length orders.new ≡ length orders.old }
    ensures kept { Forgets used.now bases.now orders.old orders.new }
{
    let mut rest = bases;
    while let [base, more @ ..] = rest {
        forget_one(orders, used, *base);
        rest = more;
    }
}

fn settle_with(
    alloc: Global,
    graph: &[List<u32>],
    orders: &mut [Option<List<u32>>],
    used: &[u32],
    bases: &[u32],
    unit: u32,
) -> Result<bool, NoMemory>
    requires size { length orders.old ≡ length graph.now }
    requires used { length used.now ≡ length graph.now }
    requires below { AllBelow (length graph.now) graph.now }
    requires right { AreRight graph.now orders.old }
    requires bases { slice_get graph.now unit ≡ Some bases.now }
    requires bases_below { Below (length graph.now) bases.now }
    requires unit { unit < length graph.now }
    ensures size { length orders.new ≡ length orders.old }
    ensures settles { IfOk result (λ b. Settles graph.now used.now orders.old unit b orders.new) }
{
    match order_of(alloc, graph, orders, used, bases, unit)? {
        None => Ok(false),
        Some(order) => {
            forget(orders, used, bases);
            orders[unit as usize] = Some(order);
            Ok(true)
        }
    }
}

// The order of a unit becomes known. Whether it has one.
fn settle(
    alloc: Global,
    graph: &[List<u32>],
    orders: &mut [Option<List<u32>>],
    used: &[u32],
    unit: u32,
) -> Result<bool, NoMemory>
    requires size { length orders.old ≡ length graph.now }
    requires used { length used.now ≡ length graph.now }
    requires below { AllBelow (length graph.now) graph.now }
    requires right { AreRight graph.now orders.old }
    ensures size { length orders.new ≡ length orders.old }
    ensures settles { IfOk result (λ b. Settles graph.now used.now orders.old unit b orders.new) }
{
    match bases_at(graph, unit) {
        None => Ok(false),
        Some(bases) => settle_with(alloc, graph, orders, used, bases, unit),
    }
}

fn settle_all(
    alloc: Global,
    graph: &[List<u32>],
    orders: &mut [Option<List<u32>>],
    used: &[u32],
    schedule: &[u32],
    unit: u32,
) -> Result<bool, NoMemory>
    requires size { length orders.old ≡ length graph.now }
    requires size_used { length used.now ≡ length graph.now }
    requires below { AllBelow (length graph.now) graph.now }
    requires right { AreRight graph.now orders.old }
    requires schedule { IsSchedule graph.now unit schedule.now }
    requires used { (x : ℕ) → x < length used.now → slice_index used.now x ≡ times x (unit ∷ []) + uses graph.now x schedule.now }
    ensures size { length orders.new ≡ length orders.old }
    ensures settles { IfOk result (λ b. SettlesAll graph.now unit b orders.new) }
{
    let mut rest = schedule;
    while let [next, more @ ..] = rest {
        if !settle(alloc, graph, orders, used, *next)? {
            return Ok(false);
        }
        rest = more;
    }
    Ok(true)
}

fn count_bases(counts: &mut [u32], graph: &[List<u32>], unit: u32) -> Result<(), NoMemory>
    requires size { length counts.old ≡ length graph.now }
    requires below { AllBelow (length graph.now) graph.now }
    ensures size { length counts.new ≡ length counts.old }
    ensures counts { OnOk result ((x : ℕ) → x < length counts.old → slice_index counts.new x ≡ slice_index counts.old x + times x (bases_of graph.now unit)) }
{
    match bases_at(graph, unit) {
        None => Ok(()),
        Some(bases) => count_all(counts, bases),
    }
}

// How often each unit is a base of others. The unit that is sought is used once more.
fn count_uses(
    alloc: Global,
    graph: &[List<u32>],
    units: &[u32],
    unit: u32,
) -> Result<Vec<u32>, NoMemory>
    requires below { AllBelow (length graph.now) graph.now }
    requires unit { unit < length graph.now }
    ensures size { IfOk result (λ v. length v.items ≡ length graph.now) }
    ensures counts { IfOk result (λ v. (x : ℕ) → x < length v.items → slice_index v.items x ≡ times x (unit ∷ []) + uses graph.now x units.now) }
{
    let mut counts = vec![in alloc; 0u32; graph.len()]?;
    count_all(&mut counts, &[unit])?;
    let mut rest = units;
    while let [next, more @ ..] = rest {
        count_bases(&mut counts, graph, *next)?;
        rest = more;
    }
    Ok(counts)
}

// So many orders of which none is known.
fn unknown_orders(alloc: Global, count: usize) -> Result<Vec<Option<List<u32>>>, NoMemory>
    ensures size { IfOk result (λ v. length v.items ≡ count) }
    ensures none { IfOk result (λ v. (u : ℕ) → known v.items u ≡ None) }
{
    let mut orders = Vec::new(alloc);
    for _unit in 0..count {
        orders.push(None)?;
    }
    Ok(orders)
}

// The order of a unit with others that it needs, each behind its bases.
fn linearized_by(
    alloc: Global,
    graph: &[List<u32>],
    schedule: &[u32],
    unit: u32,
) -> Result<Option<List<u32>>, NoMemory>
    requires below { AllBelow (length graph.now) graph.now }
    requires unit { unit < length graph.now }
    requires schedule { IsSchedule graph.now unit schedule.now }
    ensures { IfOk result (IsOrder graph.now unit) }
{
    let used = count_uses(alloc, graph, schedule, unit)?;
    let mut orders = unknown_orders(alloc, graph.len())?;
    if !settle_all(alloc, graph, &mut orders, &used, schedule, unit)? {
        return Ok(None);
    }
    Ok(orders[unit as usize].take())
}

// The order of a unit in a graph that has for each unit the list of its bases, the last base first.
pub fn linearized(
    alloc: Global,
    graph: &[List<u32>],
    unit: u32,
) -> Result<Option<List<u32>>, NoMemory>
    requires { AllBelow (length graph.now) graph.now }
    ensures { IfOk result (IsOrder graph.now unit) }
{
    match schedule(alloc, graph, unit)? {
        None => Ok(None),
        Some(schedule) => linearized_by(alloc, graph, schedule.as_slice(), unit),
    }
}
