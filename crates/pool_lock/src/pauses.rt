// How a pass waits between two reads of the turn.

use std::hint::spin_loop;
use std::thread::yield_now;

// A pass with fewer passes ahead keeps its processor for a while; the others leave theirs to those ahead.
const NEAR: u64 = 4;

// So often, at most, in one wait.
const SPINS: u32 = 64;

// Short pauses for each pass that is ahead.
const PAUSES: u64 = 2;

/// Waits a little, where so many passes are ahead.
pub fn pause(ahead: u64, spins: &mut u32) {
    if ahead < NEAR && *spins < SPINS {
        *spins += 1;
        for _pause in 0..ahead * PAUSES {
            spin_loop();
        }
    } else {
        yield_now();
    }
}
