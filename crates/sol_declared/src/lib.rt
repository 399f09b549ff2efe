//! What members of contracts and interfaces keep. `judge_members` says whether the members of a unit keep the rules where they
//! stand: Ok exactly where they have no fault, and else a rule that they break and the place. Names are those of tables that are
//! given. The rules stand in `sol_judged`, and what breaks each in `specs/`; statements are judged by `sol_stated`.
#![tactic(auto)]

mod initialisers;
mod kinds;
mod members;
mod specifiers;
mod state_types;

pub use kinds::UnitKind;
pub use members::{judge_error, judge_event, judge_members};
pub use state_types::{StateType, state_type};
