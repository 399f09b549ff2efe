// Threads that share a row.

ghost use Rattle.std.specs.Prelude.{◌≡◌, ◌≤◌, All};
ghost use Rattle.pool_lock.specs.Calls.{IsFresh, IsOurs};

use crate::rate::{Times, since};
use crate::row::Row;
use pool_lock::{Pass, PoolLock};
use std::alloc::Global;
use std::io;
use std::rt::Clock;
use std::sync::Wait;
use std::thread::{Threads, for_each_mut};
use std::time::Instant;

/// What stands in a row that threads shared, and the times of their calls.
#[derive(Drop)]
pub struct Shared {
    pub items: usize,
    pub is_whole: bool,
    pub times: Times,
}

impl Shared {
    pub fn verdict(&self) -> &'static str {
        if self.is_whole {
            "all stand"
        } else {
            "some are missing"
        }
    }
}

// So many looks, with nothing to see.
#[tactic(auto, using(crate::proofs::Beginning::beginning))]
fn look_often<R: Wait>(rt: &R, lock: &PoolLock<Row>, calls: u32, pass: &mut Pass<Row>)
    requires { IsFresh lock.now.table.shared.table_id pass.old }
    ensures { IsOurs lock.now.table.shared.table_id pass.new }
{
    let mut have = 0;
    for _call in 0..calls {
        if lock.look(rt, pass, &mut have).is_err() {
            return;
        }
    }
}

fn publish_often<R: Wait>(rt: &R, lock: &PoolLock<Row>, calls: u32, pass: &mut Pass<Row>)
    requires { IsOurs lock.now.table.shared.table_id pass.old }
    ensures { IsOurs lock.now.table.shared.table_id pass.new }
{
    for _call in 0..calls {
        if lock.publish(rt, pass, ()).is_err() {
            return;
        }
    }
}

fn look_all<R: Threads + Wait + Sync>(
    rt: &R,
    lock: &PoolLock<Row>,
    threads: usize,
    calls: u32,
    passes: &mut [Pass<Row>],
)
    requires threads { 1 ≤ threads }
    requires fresh { All (IsFresh lock.now.table.shared.table_id) passes.old }
    ensures { All (IsOurs lock.now.table.shared.table_id) passes.new }
{
    for_each_mut(
        rt,
        passes,
        threads,
        &|_, pass: &mut Pass<Row>|
            requires { IsFresh lock.now.table.shared.table_id pass.old }
            ensures { IsOurs lock.entry.now.table.shared.table_id pass.new }
        { look_often(rt, lock, calls, pass) },
    );
}

fn publish_all<R: Threads + Wait + Sync>(
    rt: &R,
    lock: &PoolLock<Row>,
    threads: usize,
    calls: u32,
    passes: &mut [Pass<Row>],
)
    requires threads { 1 ≤ threads }
    requires ours { All (IsOurs lock.now.table.shared.table_id) passes.old }
    ensures { All (IsOurs lock.now.table.shared.table_id) passes.new }
{
    for_each_mut(
        rt,
        passes,
        threads,
        &|_, pass: &mut Pass<Row>|
            requires { IsOurs lock.now.table.shared.table_id pass.old }
            ensures { IsOurs lock.entry.now.table.shared.table_id pass.new }
        { publish_often(rt, lock, calls, pass) },
    );
}

// Whether each thread's number stands so often.
fn is_whole(by: &[u32], threads: u32, calls: u32) -> bool {
    (0..threads).all(|number| { by.iter().filter(|one| **one == number).count() == calls as usize })
}

/// So many looks and then so many publications, in all, by 1 to 64 threads.
pub fn share<R: Threads + Wait + Clock + Sync>(
    rt: &R,
    alloc: Global,
    threads: u32,
    calls: u32,
) -> io::Result<Shared>
    requires some { 1 ≤ threads }
    requires few { threads ≤ 64 }
{
    let each = calls / threads;
    let row = Row {
        by: Vec::new(alloc),
    };
    let (lock, passes) = match PoolLock::open(alloc, row, threads) {
        Ok(opened) => opened,
        Err(_) => return Err(io::ErrorKind::OutOfMemory.into()),
    };
    let mut passes = passes;
    let all = passes.as_mut_slice();
    let begun = Instant::now(rt);
    look_all(rt, &lock, threads as usize, each, all);
    let looked = Instant::now(rt);
    publish_all(rt, &lock, threads as usize, each, all);
    let published = Instant::now(rt);
    let row = lock.close(passes);
    let (begun, looked, published) = (begun?, looked?, published?);
    Ok(Shared {
        items: row.by.len(),
        is_whole: is_whole(row.by.as_slice(), threads, each),
        times: Times {
            calls,
            looks: since(begun, looked),
            additions: since(looked, published),
        },
    })
}
