// What a check answers.

use chc_ask::Open;
use chc_form::System;
use chc_houdini::RoundStop;
use chc_nums::List;
use pool_state::Pool;
use sol_core::{Program, Script};
use std::sync::Arc;

/// Why templates leave a target open: a round dropped a candidate because a limit was met, or the target's own query
/// stays open under the lemmas that are kept.
#[derive(Drop)]
pub enum Stop {
    Round(RoundStop),
    Target(Open),
}

/// What was found of a target.
#[derive(Drop)]
pub enum Verdict {
    /// Multipliers that refute its query under so many of the pool's first lemmas.
    Safe(List<i128>, u64),
    /// A script that violates it within so many turns.
    Unsafe {
        script: Script,
        turns: u32,
    },
    /// Why it stays open under the template lemmas, and under the pool's; how many of the pool's lemmas the search for
    /// more has seen, and how many batches it made.
    Unknown {
        templates: Stop,
        pool: Open,
        seen: u64,
        tries: u64,
    },
}

/// The file's program, its rule system, the pool of lemmas that solve it, the candidates that were dropped on the way,
/// and one verdict per target by its place in the program's sites, in order.
#[derive(Drop)]
pub struct Report {
    pub program: Program,
    pub system: Arc<System>,
    pub pool: Pool,
    pub drops: List<RoundStop>,
    pub verdicts: List<(u32, Verdict)>,
}
