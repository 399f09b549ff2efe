// The same calls on std's lock.

ghost use Rattle.std.specs.Prelude.{◌≤◌};

use crate::rate::{Times, since};
use std::alloc::Global;
use std::io;
use std::rt::Clock;
use std::sync::{Mutex, Wait};
use std::thread::{Threads, for_each_mut};
use std::time::Instant;

// So many reads of the length.
fn look_often<R: Wait>(rt: &R, shared: &Mutex<Vec<u32>>, calls: u32) {
    for _call in 0..calls {
        let _count = shared.lock(rt).len();
    }
}

fn push_often<R: Wait>(rt: &R, shared: &Mutex<Vec<u32>>, calls: u32, number: u32) {
    for _call in 0..calls {
        if shared.lock(rt).push(number).is_err() {
            return;
        }
    }
}

/// So many looks at the length of a `Vec` under std's lock, and then so many additions, by so many threads.
pub fn rival<R: Threads + Wait + Clock + Sync>(
    rt: &R,
    alloc: Global,
    threads: u32,
    calls: u32,
) -> io::Result<Times>
    requires { 1 ≤ threads }
{
    let each = calls / threads;
    let shared = Mutex::new(Vec::new(alloc));
    let mut numbers = Vec::new(alloc);
    for number in 0..threads {
        numbers.push(number)?;
    }
    let begun = Instant::now(rt)?;
    for_each_mut(
        rt,
        numbers.as_mut_slice(),
        threads as usize,
        &|_, _number: &mut u32| { look_often(rt, &shared, each) },
    );
    let looked = Instant::now(rt)?;
    for_each_mut(
        rt,
        numbers.as_mut_slice(),
        threads as usize,
        &|_, number: &mut u32| { push_often(rt, &shared, each, *number) },
    );
    let pushed = Instant::now(rt)?;
    Ok(Times {
        calls,
        looks: since(begun, looked),
        additions: since(looked, pushed),
    })
}
