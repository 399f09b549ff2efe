//! The program: what the system gives goes to the driver's `run_program`, and the process ends with its number.
#![tactic(auto)]

use sol_driver::{WordsFault, run_program};
use sol_outside::{FileShelf, OpenGate, StdSink};
use std::env;
use std::io::{self, ErrorKind};
use std::process::ExitCode;
use std::rt::{Env, Files};
use std::sync::Wait;
use std::thread::{Builder, Threads};

// The bytes of stack for the work: how deep a text may nest is not to hang on what the system gives the first thread.
const STACK: usize = 256 * 1024 * 1024;

fn words_fault(error: io::Error) -> WordsFault {
    if error.kind() == ErrorKind::OutOfMemory {
        WordsFault::NoMemory
    } else {
        WordsFault::Unreadable
    }
}

fn work<R: Files + Print + Env + AllocGlobal + Threads + Wait + Sync, E: Print>(
    rt: &R,
    errors: &E,
) -> u8 {
    let args = env::args(rt).map_err(words_fault);
    let mut shelf = FileShelf::new(rt);
    let mut out = StdSink::new(rt);
    let mut notes = StdSink::new(errors);
    run_program(
        rt,
        rt.alloc(),
        args,
        &mut shelf,
        &mut out,
        &mut notes,
        &OpenGate,
    )
}

// Where no thread can be made, the first does the work.
fn main(rt: HostRuntime) -> ExitCode {
    let worker = Builder::new()
        .stack_size(STACK)
        .spawn(&rt, move || work(&rt, &rt.stderr()));
    match worker {
        Ok(worker) => ExitCode::from(worker.join(&rt)),
        Err(_) => ExitCode::from(work(&rt, &rt.stderr())),
    }
}
