//! Lemmas that a search may try on a system, from the numbers with which its constraints compare a variable.
//! `candidates` gives them by one equation with the list of `specs/Candidates.antt`; `candidate_law` says that each is
//! a lemma of the system with one literal and no bound keys, and that there are at most 1,024. `constant_law` says what
//! the order of the constants is.
#![tactic(auto)]

mod candidate_laws;
mod comparisons;
mod constant_laws;
mod placing;
mod search;

pub use candidate_laws::candidate_law;
pub use constant_laws::constant_law;
pub use search::candidates;
