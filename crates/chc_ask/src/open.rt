// What asking answers.

ghost use Rattle.std.specs.Prelude.{◌≡◌, IfOk};

use chc_nums::{List, NoMemory};
use std::alloc::Global;

/// Why a formula stays open: it is true at a point (numerators and one denominator), or the search for one met a limit:
/// a number that leaves 128 bits, too many pivots, too many nodes.
#[derive(Drop)]
pub enum Why {
    Point(List<i128>, i128),
    Wide,
    Pivots,
    Nodes,
}

/// A branch that stays open: the number of the alternative taken at each `Or` that was opened, and why.
#[derive(Drop)]
pub struct Open {
    pub branch: List<u32>,
    pub why: Why,
}

/// What was found of a formula: multipliers that refute its rows, or why it stays open.
#[derive(Drop)]
pub enum Asked {
    Refuted(List<i128>),
    Open(Open),
}

impl Open {
    /// One that is equal to this.
    pub fn copy(&self, alloc: Global) -> Result<Open, NoMemory>
        ensures { IfOk result (λ o. o ≡ self.now) }
    {
        Ok(Open {
            branch: self.branch.copy(alloc)?,
            why: self.why.copy(alloc)?,
        })
    }
}

impl Why {
    fn copy(&self, alloc: Global) -> Result<Why, NoMemory>
        ensures { IfOk result (λ w. w ≡ self.now) }
    {
        match self {
            Why::Point(x, d) => Ok(Why::Point(x.copy(alloc)?, *d)),
            Why::Wide => Ok(Why::Wide),
            Why::Pivots => Ok(Why::Pivots),
            Why::Nodes => Ok(Why::Nodes),
        }
    }
}
