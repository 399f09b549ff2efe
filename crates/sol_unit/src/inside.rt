// Which units are in a linearization.

ghost use Rattle.std.specs.Prelude.{◌≡◌, ◌<◌, ◌==◌, ◌||◌, ℕ, length, IfOk};
ghost use Rattle.sol_unit.specs.Marks.{is_marked, AreMarked};

use chc_nums::NoMemory;
use std::alloc::Global;

#[tactic(auto, using(crate::proofs::Marking::marking))]
fn mark(marks: &mut [bool], place: u32)
    ensures length { length marks.new ≡ length marks.old }
    ensures marks { (u : ℕ) → u < length marks.old → is_marked marks.new u ≡ ((place == u) || is_marked marks.old u) }
{
    let place = place as usize;
    if place < marks.len() {
        marks[place] = true;
    }
}

pub fn is_marked(marks: &[bool], place: u32) -> bool
    ensures { result ≡ is_marked marks.now place }
{
    match marks.get(place as usize) {
        None => false,
        Some(mark) => *mark,
    }
}

/// For each of so many units, whether it is in a linearization.
#[tactic(auto, using(crate::proofs::Marking::marking))]
pub fn inside(alloc: Global, count: usize, lineage: &[u32]) -> Result<Vec<bool>, NoMemory>
    ensures { IfOk result (λ v. AreMarked count lineage.now v.items) }
{
    let mut marks = vec![in alloc; false; count]?;
    for place in lineage {
        mark(&mut marks, *place);
    }
    Ok(marks)
}
