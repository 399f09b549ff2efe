//! The text of a script, line by line: what is deployed and called, by whom and with which arguments, and what external
//! calls meet. `lines` gives the lines of a script, and `read` the script that a text tells, or the first line that is wrong;
//! `text_law` says that they are each other's way back.
#![tactic(auto)]

mod cuts;
mod fault;
mod laws;
mod line;
mod reader;
mod reading;
mod text;
mod words;

pub use cuts::cut;
pub use fault::ScriptTextFault;
pub use laws::text_law;
pub use line::number;
pub use reader::read;
pub use text::{lines, print};
