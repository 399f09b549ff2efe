//! Probes: scripts that are tried on every program, with corner values as arguments, a deployment alone and a deployment
//! with one call after it. `first_hits` gives for each target the first of them that violates it, or says that none does;
//! `probe_law` says that each of them fits its program.
#![tactic(auto)]

mod calls;
mod choices;
mod corners;
mod deployments;
mod law;
mod probes;
mod search;

pub use law::probe_law;
pub use search::first_hits;
