//! The tree of a list of tokens, as the grammar in `specs/Grammar.antt` says: files, contracts and their members.
//! `parse` gives the tree, or a place where there is none.
#![tactic(auto)]

mod elements;
mod members;
mod parser;
mod parts;
mod specifiers;
mod units;

pub use parser::{one_tree, parse};
