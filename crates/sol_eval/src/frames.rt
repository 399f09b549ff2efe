// What the parts of a run read.

use sol_core::{Program, Reply};
use std::alloc::Global;

/// By whom the running call from outside was made, whether it may change nothing, and what its external calls meet.
#[derive(Clone, Copy)]
pub struct Caller<'a> {
    pub sender: i128,
    pub is_static: bool,
    pub replies: &'a [Reply],
}

/// What the body of a function reads: the program, how deep calls may nest and how many turns a loop may take, and the
/// running call from outside.
#[derive(Clone, Copy)]
pub struct Frame<'a> {
    pub program: &'a Program,
    pub level: u32,
    pub caller: &'a Caller<'a>,
}

/// Runs bodies in a frame, over what makes the calls in them.
#[derive(Clone, Copy)]
pub struct Runner<'a, F> {
    pub alloc: Global,
    pub frame: Frame<'a>,
    pub call: F,
}
