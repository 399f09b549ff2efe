//! The first language as plain data: a contract of `uintN` variables and of functions that are lists of steps.
//! `program` is the elaborated contract, whose meaning stands in `sol_meaning`.
#![tactic(auto)]

mod contract;
mod elaborate;

pub use contract::{Contract, Function, Order, Step, Variable};
pub use elaborate::{program, sites};
