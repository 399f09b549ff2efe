//! Numbers that threads claim: each of 0 to n - 1 is drawn once, by one of 1 to 64 passes. A claim is one step on one word; it
//! waits for nobody and takes no memory.
//! The rule that holds between any two steps is `Counted` of `specs/Counted.antt`. `claim` answers a number, or none where all
//! are drawn or its pass had none before; `close` says that the numbers drawn are those below its answer, each once.
#![tactic(auto)]

mod claims;
mod pass;
mod steps;
mod view;

pub use claims::Claims;
pub use pass::ClaimPass;
pub use view::{Drawn, Size, View};
