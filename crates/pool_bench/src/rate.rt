// How long calls took.

use std::io;
use std::io::Print;
use std::time::{Duration, Instant};

/// How long so many looks and so many additions took.
#[derive(Drop)]
pub struct Times {
    pub calls: u32,
    pub looks: Duration,
    pub additions: Duration,
}

/// What passed between two times.
pub fn since(begun: Instant, ended: Instant) -> Duration {
    ended
        .checked_duration_since(begun)
        .unwrap_or(Duration::ZERO)
}

// How many calls a second that is, in thousands.
fn thousands(calls: u32, took: Duration) -> u64 {
    calls as u64 * 1_000_000 / (took.as_nanos().min(u64::MAX as u128) as u64).max(1)
}

/// One line on what so many threads made of one lock.
pub fn report<E: Print>(errors: &E, threads: u32, of: &str, times: &Times) -> io::Result<()> {
    let looks = thousands(times.calls, times.looks);
    let additions = thousands(times.calls, times.additions);
    println!(errors;
        "passes: {threads}, {of}: {looks} thousand looks a second, {additions} thousand additions"
    )
}
