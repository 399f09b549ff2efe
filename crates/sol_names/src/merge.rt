// Lists merged into one: the first head that stands in no tail is taken, again and again.

ghost use Rattle.std.specs.Prelude.{◌≡◌, ◌+◌, ◌<◌, ◌≤◌, ℕ, length, map, slice_index, IfOk, OnOk};
ghost use Rattle.sol_names.specs.Linearization.{without_head, next_of, is_empty};
ghost use Rattle.std.specs.List.{list_all};
ghost use Rattle.sol_names.specs.Tails.{views, Below, AllBelow, times, times_behind, AreTails};
ghost use Rattle.sol_names.specs.Known.{IsMerge};

use chc_nums::{List, NoMemory};
use std::alloc::Global;

// The numbers in the tail of a list, counted.
fn count_tail(counts: &mut [u32], list: &[u32]) -> Result<(), NoMemory>
    requires { Below (length counts.old) list.now }
    ensures { OnOk result ((u : ℕ) → u < length counts.old → slice_index counts.new u ≡ slice_index counts.old u + times_behind u list.now) }
{
    let [_head, tail @ ..] = list else {
        return Ok(());
    };
    count_all(counts, tail)
}

pub fn count_all(counts: &mut [u32], numbers: &[u32]) -> Result<(), NoMemory>
    requires { Below (length counts.old) numbers.now }
    ensures { OnOk result ((u : ℕ) → u < length counts.old → slice_index counts.new u ≡ slice_index counts.old u + times u numbers.now) }
{
    let mut rest = numbers;
    while let [number, more @ ..] = rest {
        let at = *number as usize;
        counts[at] = counts[at].checked_add(1).ok_or(NoMemory)?;
        rest = more;
    }
    Ok(())
}

// How often each number stands in a tail. `NoMemory` also stands for 2^32 times.
fn tails(alloc: Global, lists: &[&[u32]], size: usize) -> Result<Vec<u32>, NoMemory>
    requires { AllBelow size (views lists.now) }
    ensures size { IfOk result (λ v. length v.items ≡ size) }
    ensures counts { IfOk result (λ v. AreTails v.items (views lists.now)) }
{
    let mut counts = vec![in alloc; 0u32; size]?;
    let mut rest = lists;
    while let [list, more @ ..] = rest {
        count_tail(&mut counts, list)?;
        rest = more;
    }
    Ok(counts)
}

// The first head that stands in no tail.
fn next_head(lists: &[&[u32]], counts: &[u32]) -> Option<u32>
    requires below { AllBelow (length counts.now) (views lists.now) }
    requires counted { AreTails counts.now (views lists.now) }
    ensures { result ≡ next_of (views lists.now) }
{
    let mut rest = lists;
    while let [list, more @ ..] = rest {
        if let [head, ..] = *list {
            if counts[*head as usize] == 0 {
                return Some(*head);
            }
        }
        rest = more;
    }
    None
}

// A list without a number at its head. What stands at the head then is in the tail no more.
fn without_head<'a>(list: &'a [u32], head: u32, counts: &mut [u32]) -> &'a [u32]
    requires below { Below (length counts.old) list.now }
    requires counted { (u : ℕ) → u < length counts.old → times_behind u list.now ≤ slice_index counts.old u }
    ensures rest { result.now ≡ without_head head list.now }
    ensures counts { (u : ℕ) → u < length counts.old → slice_index counts.new u + times_behind u list.now ≡ slice_index counts.old u + times_behind u result.now }
{
    match list {
        [first, rest @ ..] => {
            if *first != head {
                return list;
            }
            if let [next, ..] = rest {
                counts[*next as usize] -= 1;
            }
            rest
        }
        [] => list,
    }
}

// All lists without it.
fn without_heads<'a>(
    alloc: Global,
    lists: &[&'a [u32]],
    head: u32,
    counts: &mut [u32],
) -> Result<Vec<&'a [u32]>, NoMemory>
    requires below { AllBelow (length counts.old) (views lists.now) }
    requires counted { AreTails counts.old (views lists.now) }
    ensures lists { IfOk result (λ v. views v.items ≡ map (without_head head) (views lists.now)) }
    ensures counts { OnOk result (AreTails counts.new (map (without_head head) (views lists.now))) }
{
    let mut left = Vec::new(alloc);
    let mut rest = lists;
    while let [list, more @ ..] = rest {
        left.push(without_head(list, head, counts))?;
        rest = more;
    }
    Ok(left)
}

fn all_empty(lists: &[&[u32]]) -> bool
    ensures { result ≡ list_all is_empty (views lists.now) }
{
    let mut rest = lists;
    while let [list, more @ ..] = rest {
        if !list.is_empty() {
            return false;
        }
        rest = more;
    }
    true
}

// Lists merged into one, with how often each number stands in a tail.
#[tactic(auto, using(crate::proofs::Merging::merging))]
fn merged_with(
    alloc: Global,
    lists: Vec<&[u32]>,
    counts: &mut [u32],
) -> Result<Option<List<u32>>, NoMemory>
    requires below { AllBelow (length counts.old) (views lists.items) }
    requires counted { AreTails counts.old (views lists.items) }
    ensures { IfOk result (IsMerge (views lists.entry.items)) }
{
    let mut order = List::new(alloc);
    let mut left = lists;
    while let Some(head) = next_head(left.as_slice(), counts) {
        order.push(head)?;
        left = without_heads(alloc, left.as_slice(), head, counts)?;
    }
    if all_empty(left.as_slice()) {
        Ok(Some(order))
    } else {
        Ok(None)
    }
}

// Lists of numbers below a size, merged into one.
pub fn merged(alloc: Global, lists: Vec<&[u32]>, size: usize) -> Result<Option<List<u32>>, NoMemory>
    requires { AllBelow size (views lists.items) }
    ensures { IfOk result (IsMerge (views lists.entry.items)) }
{
    let mut counts = tails(alloc, lists.as_slice(), size)?;
    merged_with(alloc, lists, &mut counts)
}
