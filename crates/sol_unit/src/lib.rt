//! What the names of a file mean, and what its units keep. `judge_file` says whether a file keeps the rules: Ok exactly where it has
//! no fault, and else a rule that is broken and the place. The members of a linearization make the tables that they are judged in
//! (`scene_with`), which go from the most base-like unit on, so that a name means the most derived member. Members are judged by
//! `sol_declared`, and what each of them adds stands in `specs/`, a file for each kind.
#![tactic(auto)]

mod added;
mod files;
mod functions;
mod inside;
mod judging;
mod lineages;
mod listing;
mod outers;
mod parameters;
mod reads;
mod scenes;
mod tables;
mod variables;

pub use judging::{judge_file, judge_unit, judge_units};
pub use scenes::{Scene, Shared, scene_with, shared_in};
