//! What statements are. `judge_block` says whether the statements of a block keep the rules where they stand: Ok exactly where
//! they have no fault, with the locals after them, and else a rule that they break and the place; `judge_function`,
//! `judge_constructor` and `judge_modifier` say it of whole bodies, with parameters, returned types and the modifiers that are
//! used. The rules stand in `sol_judged`, and what breaks each in `specs/`, a file for each kind of statement.
#![tactic(auto)]

mod bodies;
mod context;
mod marks;
mod params;
mod scope;
mod simple;
mod statements;
mod targets;
mod value_types;
mod values;

pub use bodies::{judge_constructor, judge_function, judge_modifier};
pub use context::{Around, Body, without_locals};
pub use params::judge_params;
pub use scope::Scope;
pub use statements::{judge_block, judge_statement};
pub use value_types::value_type;
pub use values::value_in;
