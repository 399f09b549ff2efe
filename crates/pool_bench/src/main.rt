//! Times looks and publications under the pool's lock, round a list of items that hold nothing, by 1, 2 and 4 threads, beside
//! std's `Mutex` round a `Vec` in the same run. What stands afterwards is printed; the rates go to standard error. The one word
//! says how many calls each round makes, 1,000 where there is none.
#![tactic(auto)]

mod crew;
mod rate;
mod rival;
mod row;

use crew::share;
use rate::report;
use rival::rival;
use std::{env, io};

const CALLS: u32 = 1000;

fn main(rt: HostRuntime) -> io::Result<()> {
    let calls = match env::args(&rt)?.nth(1) {
        Some(word) => word.parse().unwrap_or(CALLS),
        None => CALLS,
    };
    for threads in [1, 2, 4] {
        let shared = share(&rt, rt.alloc(), threads, calls)?;
        println!(rt;
            "passes: {threads}, items: {}, {}",
            shared.items,
            shared.verdict()
        )?;
        report(&rt.stderr(), threads, "the pool's lock", &shared.times)?;
        report(
            &rt.stderr(),
            threads,
            "std's Mutex",
            &rival(&rt, rt.alloc(), threads, calls)?,
        )?;
    }
    Ok(())
}
