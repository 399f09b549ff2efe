// What outsiders do with a contract.

use chc_nums::List;
use sqlite_items::Items;

/// How an external call is answered: with a value, where one is declared, or by failing.
#[derive(Clone, Copy, Debug, PartialEq, Eq)]
pub enum Answer {
    Give(Option<i128>),
    Fail,
}

/// A call of a function that an outsider may call, by its place in `doors`, and what its external calls meet.
#[cycle(script)]
#[derive(Drop)]
pub struct Call {
    pub fun: u32,
    pub sender: i128,
    pub args: List<i128>,
    pub replies: Items<Reply>,
}

/// What an external call meets: calls back into the contract, and then an answer.
#[cycle(script)]
#[derive(Drop)]
pub struct Reply {
    pub calls: Items<Call>,
    pub answer: Answer,
}

/// A deployment and the calls after it.
#[derive(Drop)]
pub struct Script {
    pub sender: i128,
    pub args: List<i128>,
    pub calls: List<Call>,
}
