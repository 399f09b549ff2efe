//! What a check answers, as plain data, and its text: `lines` gives the lines of `specs/Texts.antt`, and `listing` those of
//! `specs/Listing.antt`, which tell the targets alone.
#![tactic(auto)]

mod report;
mod targets;
mod text;

pub use report::{Report, Stop, Verdict};
pub use targets::listing;
pub use text::lines;
