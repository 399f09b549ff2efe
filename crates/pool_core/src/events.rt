// What happens to a pool, and what is told of it.

use chc_ask::Asked;
use pool_state::Batch;

/// What a worker does: it looks at the pool, it publishes a batch, or it asks a target, by the number of its query.
#[derive(Drop)]
pub enum Event {
    Look { worker: u32 },
    Publish { worker: u32, batch: Batch },
    Answer { worker: u32, target: u32 },
}

/// What a worker is told: how many lemmas it has seen, the place of its batch among all batches, that the batch is a
/// stranger's, which is handed back, or the answer to its question.
#[derive(Drop)]
pub enum Told {
    Seen { len: u64 },
    Placed { at: u64 },
    Stranger { batch: Batch },
    Asked(Asked),
}
