// Rows, answers and the parts of a tableau.

use chc_nums::{List, NoMemory};

/// How a run ends.
#[derive(Drop)]
pub enum Lp {
    /// Multipliers that refute the rows, one for each, none negative.
    Infeasible(List<i128>),
    /// A point that satisfies the rows: numerators, one for each variable from 0 to the greatest that stands in a
    /// row, and their one denominator.
    Feasible(List<i128>, i128),
    /// A number of the run leaves 128 bits.
    Wide,
    /// The run takes more pivots than allowed.
    Pivots,
}

/// A basic variable's line: the denominator times the variable is the sum of the terms, each a nonbasic variable's
/// number and its coefficient.
#[derive(Drop)]
pub struct Line {
    pub denominator: i128,
    pub terms: List<(usize, i128)>,
}

/// The tableau of a run: the number of variables before the slacks, the bounds of the slacks, the lines, and of each line
/// whether its variable is a basic slack above its bound, or none where a number of that test leaves 128 bits. So a round
/// tests again only lines that a pivot changed.
#[derive(Drop)]
pub struct Simplex {
    pub variables: usize,
    pub bounds: List<i128>,
    pub tableau: List<Option<Line>>,
    pub above_flags: List<Option<bool>>,
}

/// What a round finds.
#[derive(Clone, Copy, Debug, PartialEq, Eq)]
pub enum Step {
    /// No basic slack is above its bound.
    AllHold,
    /// This slack is, and nothing may enter for it.
    Stuck(usize),
    /// The first leaves, and the second enters.
    Pivot(usize, usize),
}

/// Why a run ends early.
#[derive(Clone, Copy, Debug, PartialEq, Eq)]
pub enum Stop {
    Wide,
    NoMemory,
}

impl From<NoMemory> for Stop {
    ghost use Rattle.std.specs.Prelude.{◌≡◌};
    ghost use Rattle.chc_simplex.specs.declared.data.Stop.TheVariants as stop;

    ghost from_gives = { λ _ e. e ≡ stop.NoMemory };

    fn from(_e: NoMemory) -> Stop {
        Stop::NoMemory
    }
}
