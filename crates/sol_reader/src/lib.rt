//! The first language, exactly: a contract of `uintN` variables and of functions that are lists of statements, from the
//! tree of a file. `read` finds a contract exactly where the tree is that of some contract, and then the only one. What
//! the language is stands in `specs/Language.antt`.
#![tactic(auto)]

mod check;
mod contract;
mod fault;
mod lines;
mod reader;
mod step;

pub use fault::ReadFault;
pub use lines::Lines;
pub use reader::{one_contract, read};
