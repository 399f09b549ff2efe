// A batch that joined a pool, by numbers.

/// A batch that joined: whose it was, how many lemmas its base had, and how many it has itself.
#[derive(Clone, Copy, Debug, PartialEq, Eq)]
pub struct Joined {
    pub worker: u32,
    pub base: u64,
    pub len: u64,
}
