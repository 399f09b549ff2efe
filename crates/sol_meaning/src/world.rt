// What a run changes, and how its parts end.

use chc_nums::List;
use sol_core::State;

/// The state, the locals of the running function, how many replies the running call has taken, the turns that are left,
/// and the targets that were hit, as places in `sites` in the order in which they were hit.
#[derive(Drop)]
pub struct World {
    pub state: State,
    pub locals: List<i128>,
    pub taken: usize,
    pub turns: u32,
    pub hits: List<u32>,
}

/// How a part of a run ends: with an answer, undone up to the call from outside that is running, or for want of turns.
/// The answer of an expression is its value, where booleans are 0 and 1; that of a statement is an `End`.
#[derive(Clone, Copy, Debug, PartialEq, Eq)]
pub enum Got<T> {
    Value(T),
    Reverted,
    Cut,
}

/// Where a statement leaves its body: at its end, or by a `break`, a `continue` or a `return`.
#[derive(Clone, Copy, Debug, PartialEq, Eq)]
pub enum End {
    Normal,
    Broke,
    Continued,
    Left,
}

/// A place whose index expressions have values: a local, a scalar, a mapping's keys, or an array's element.
#[derive(Clone, Copy, Debug, PartialEq, Eq)]
pub enum Spot {
    Local(u32),
    Scalar(u32),
    Entry(u32, i128, i128),
    Element(u32, usize),
}
