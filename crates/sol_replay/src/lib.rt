//! What the text of a script shows of a target. `replay` answers that the script violates it exactly where the text tells a
//! script that fits the program and hits the target within `MAX_TURNS` turns (`specs/Replays.antt`).
#![tactic(auto)]

mod shown;

pub use shown::{Replayed, replay};
