// What a check is asked for.

use chc_nums::{List, Name};

/// Which kinds of target are wanted: six truth values, by kind number.
#[derive(Drop)]
pub struct Kinds {
    pub wanted: List<bool>,
}

/// What a check is asked for: the contract (none: the last one that can be deployed), the kinds of target, and how
/// many rounds of search a target gets.
#[derive(Drop)]
pub struct Options {
    pub contract: Option<Name>,
    pub kinds: Kinds,
    pub rounds: u32,
}
