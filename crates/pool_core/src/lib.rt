//! The pool as its workers see it, without threads: a content, and what each worker has seen of it. An event is a look, a
//! publication or a question; `step` does one, and `run_core` a list of them.
//! What an event does is `Steps` of `specs/Steps.antt`, and what a list of them does is `Runs` of `specs/Runs.antt`. The type
//! `PoolCore` keeps that the lemmas of the pool solve its rules, and that what a worker has seen is a prefix of the pool;
//! `core_law` says it of every list of events.
#![tactic(auto)]

mod alike;
mod events;
mod fitting;
mod laws;
mod marks;
mod run;
mod state;

pub use events::{Event, Told};
pub use laws::core_law;
pub use marks::Mark;
pub use run::{are_in_range, run_core};
pub use state::PoolCore;
