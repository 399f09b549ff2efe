//! The Horn rules of a contract of the first language. `encode` makes them: a rule that all is zero after deployment, a
//! rule per function, and a query per target. `encoding_law` says what they show: lemmas that solve the rules and refute
//! a query leave no script that violates its target, and a target is derived just where some script violates it.
#![tactic(auto)]

mod few;
mod law;
mod path;
mod rows;
mod rules;

pub use law::encoding_law;
pub use rules::encode;
