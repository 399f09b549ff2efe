//! Whether a lemma is true at a rule's head, or a query is refuted, under lemmas, by one run of the tableau. The answer
//! of `ask` is that of `asked_of` (`specs/Asked.antt`); what it says of the formula is `ask_law`.
#![tactic(auto)]

mod asking;
mod goals;
mod laws;
mod open;

pub use asking::ask;
pub use goals::{Answer, ask_goal};
pub use laws::ask_law;
pub use open::{Asked, Open, Why};
