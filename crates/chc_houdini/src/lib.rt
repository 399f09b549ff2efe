//! Rounds over template lemmas: from a list of candidates, those that are left when in each round every candidate is
//! dropped that the candidates of the round do not show. Which are dropped and why is `RightDrops` (`specs/Drops.antt`);
//! the multipliers for those that are kept are `AllAsked` (`specs/Proofs.antt`).
#![tactic(auto)]

mod greatest;
mod laws;
mod rounds;

pub use greatest::{Greatest, RoundStop, greatest_of};
pub use laws::kept_law;
