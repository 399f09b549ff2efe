//! What the words of the command line ask. `read_request` gives what `specs/Request.antt` says that they ask, or none where they are
//! of no form that is read.
#![tactic(auto)]

mod arguments;
mod request;
mod target;

pub use request::{Request, Source, read_request};
