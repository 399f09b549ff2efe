//! What a contract does: values of expressions, runs of statements, calls and whole scripts, and which targets a
//! script violates. The definitions stand in `specs/`; here are the plain types that they share with an evaluator.
#![tactic(auto)]

mod world;

pub use world::{End, Got, Spot, World};
