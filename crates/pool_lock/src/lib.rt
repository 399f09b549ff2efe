//! A lock round a value that only grows, for 1 to 64 passes. One pass at a time has the value, in the order in which tickets
//! were drawn; what it does there is one event of the lock, a step on the word that counts items.
//! A look that finds no more items counted than its pass has seen is one load of that word, and takes no ticket.
//! The rule that holds between any two steps of any threads is `Kept` of `specs/Rule.antt`. `look` shows the list at its event,
//! `publish` appends an item in the pass's name and tells its place (`specs/Calls.antt`), and `close` gives the value back, in
//! which each pass's items stand, each once and in order, and no others behind the opening list.
#![tactic(auto)]

mod calls;
mod ends;
mod growing;
mod lock;
mod pass;
mod pauses;
mod plays;
mod seats;
mod view;

pub use growing::Growing;
pub use lock::PoolLock;
pub use pass::{NumberedSeat, Pass};
pub use view::{Known, Opened, Phase, View};
