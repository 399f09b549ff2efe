// Linear sums.

use chc_nums::List;

/// A sum of products and a constant: each term is a variable's number and its coefficient. Variables ascend, and no
/// coefficient is 0.
#[derive(Drop)]
pub struct Lin {
    pub terms: List<(u32, i128)>,
    pub konst: i128,
}

/// An inequality: the sum is at most 0.
#[derive(Drop)]
pub struct Row {
    pub lin: Lin,
}

/// How far an engine goes: the pivots of one run of the tableau, and the nodes of one tree of cases.
#[derive(Clone, Copy, Debug, PartialEq, Eq)]
pub struct Limits {
    pub pivots: u32,
    pub nodes: u32,
}
