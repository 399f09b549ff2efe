//! What a script does to a contract, computed: `run` gives the state, the hits and whether the run was cut as the
//! definitions of `sol_meaning` give them.
#![tactic(auto)]

mod answers;
mod arrays;
mod calls;
mod deployment;
mod frames;
mod hits;
mod numbers;
mod outcome;
mod outside;
mod panics;
mod places;
mod runs;
mod statements;
mod values;

pub use outcome::Run;
pub use runs::run;
