//! The top calls: from the words of the command line and the bytes of a file to the report and the bytes written.
//! The statement to believe is the clause of `run_alone` and `run_main`, `Ends` in `specs/Ends.antt`; what a report says of
//! a text is `Stands` in `specs/Stands.antt`, and what a script shows of a target `Replays` of `sol_replay`.
#![tactic(auto)]

mod contract;
mod find;
mod laws;
mod outcome;
mod program;
mod refusal;
mod replay;
mod tell;
mod top;

pub use laws::status_laws;
pub use outcome::{Outcome, Status, code};
pub use program::{WordsFault, given_words, run_program, run_status};
pub use top::{run_alone, run_main};
