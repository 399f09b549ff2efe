//! What expressions are. `judge` says what an expression is where it stands: Ok exactly where it breaks no rule, with its type
//! and what it stands for in a program, and else a rule that it breaks and the place. The rules stand in `src/rules.rt`, and
//! what breaks each in `specs/`, a file for each kind of expression.
#![tactic(auto)]

mod conversions;
mod copies;
mod expressions;
mod fault;
mod findings;
mod indices;
mod linked;
mod members;
mod names;
mod numbers;
mod operands;
mod operators;
mod rules;
mod tables;
mod types;

pub use expressions::{judge, judge_all};
pub use fault::TypeFault;
pub use findings::{Call, Found, Thing, Value};
pub use linked::Members;
pub use names::{last_binding, meaning_of};
pub use operands::{call_type, side, wanted};
pub use operators::truth;
pub use rules::Rule;
pub use tables::{
    Binding, Constant, Declared, Function, MapType, Meaning, Member, OuterFunction, Surroundings,
};
pub use types::{ValueType, common, is_integer, widens};
