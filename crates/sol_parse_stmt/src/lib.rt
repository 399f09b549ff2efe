//! Statements from tokens, as the grammar in `specs/Grammar.antt` says. `block_at` reads the block of a body.
#![tactic(auto)]

mod leaf;
mod parts;
mod simple;
mod steps;
mod stmt;

pub use parts::arguments_at;
pub use simple::may_initial_at;
pub use stmt::{block_at, stmt_at};
