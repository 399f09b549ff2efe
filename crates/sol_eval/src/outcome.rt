// How a run ends.

use chc_nums::List;
use sol_core::State;

/// A run: the state in which it ends, where the contract was deployed; the targets that were hit, as places in
/// `sites`, in ascending order, each once; and whether it was cut for want of turns.
#[derive(Drop)]
pub struct Run {
    pub state: Option<State>,
    pub hits: List<u32>,
    pub cut: bool,
}
