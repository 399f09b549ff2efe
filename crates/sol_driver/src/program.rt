// What the program does with its words and its status.

ghost use Rattle.std.specs.Prelude.{◌≡◌, IfOk, Err, is_ok, false};
ghost use Rattle.sol_driver.specs.Ends.{Asked, EndsWith, asked, told};
ghost use Rattle.sol_driver.specs.Program.{given_words, asks_usage, usage, usage_for, EndsAsNumber};
ghost use Rattle.sol_driver.specs.Texts.{code_of};
ghost use Rattle.sol_outside.specs.Causes.{AppendedPart};

use crate::outcome::{Status, code};
use crate::top::{run_main, without_memory};
use chc_nums::NoMemory;
use sol_outside::{Gate, Shelf, Sink};
use std::alloc::Global;
use std::sync::Wait;
use std::thread::Threads;
use std::vec::IntoIter;

/// Why the system gave no words: one of them isn't UTF-8, or memory was wanting for them.
#[derive(Clone, Copy, Debug, PartialEq, Eq)]
pub enum WordsFault {
    Unreadable,
    NoMemory,
}

/// The words after the first, which is the program's name, in order and all; none where one can't be read.
pub fn given_words(
    alloc: Global,
    args: Result<IntoIter<String>, WordsFault>,
) -> Result<Vec<String>, NoMemory>
    ensures words { IfOk result (λ words. words.items ≡ given_words args) }
    ensures memory { args ≡ Err WordsFault.NoMemory → is_ok result ≡ false }
{
    let mut words = Vec::new(alloc);
    match args {
        Ok(mut args) => {
            let _ = args.next();
            while let Some(word) = args.next() {
                words.push(word)?;
            }
        }
        Err(WordsFault::Unreadable) => {}
        Err(WordsFault::NoMemory) => return Err(NoMemory),
    }
    Ok(words)
}

// Whether no word is given, or `--help` alone.
fn asks_usage(words: &[String]) -> bool
    ensures { result ≡ asks_usage words.now }
{
    match words {
        [] => true,
        [word] => word.as_str() == "--help",
        [_, _, ..] => false,
    }
}

fn usage() -> &'static [u8]
    ensures { result.now ≡ usage }
{
    b"usage: solchc check FILE [--contract NAME]\n       solchc targets FILE [--contract NAME]\n       solchc replay FILE SCRIPT LINE:COLUMN:KIND [--contract NAME]\ncheck prints a line for each target of the contract in FILE: safe, unsafe or unknown; targets prints where they\nstand; replay says whether the calls in SCRIPT violate a target.\nExit status: 0 all safe, or listed, or violated; 1 some unsafe, 2 some unknown, 3 text refused, 4 words refused,\n5 read fault, 6 write fault, 7 no memory, 8 file too long, 9 no target, script refused or not violated.\n"
}

// Tells how the program is used, where the words ask for it. A fault of that changes nothing.
#[tactic(auto, using(crate::proofs::Outcomes::attempts))]
fn tell_usage<N: Sink>(words: &[String], notes: &mut N)
    ensures { AppendedPart (N.written notes.old) (N.written notes.new) (usage_for words.now) }
{
    let text: &[u8] = if asks_usage(words) { usage() } else { b"" };
    let _ = notes.put(text);
}

/// Does what the words ask, as `run_main`, and answers the status alone.
pub fn run_status<R: Threads + Wait + Sync, F: Shelf, K: Sink, G: Gate + Sync>(
    rt: &R,
    alloc: Global,
    words: &[String],
    shelf: &mut F,
    out: &mut K,
    gate: &G,
) -> Status
    ensures { EndsWith (asked words.now (F.holds shelf.old) (F.faults shelf.old) (F.faults shelf.new)) (told (K.written out.old) (K.written out.new) (K.faults out.old) (K.faults out.new)) result }
{
    let outcome = run_main(rt, alloc, words, shelf, out, gate);
    outcome.status
}

// What `run_program` does where the words were gathered.
#[tactic(auto, using(crate::proofs::Numbers::numbers))]
fn run_words<R: Threads + Wait + Sync, F: Shelf, K: Sink, N: Sink, G: Gate + Sync>(
    rt: &R,
    alloc: Global,
    words: &[String],
    shelf: &mut F,
    out: &mut K,
    notes: &mut N,
    gate: &G,
) -> u8
    ensures ends { EndsAsNumber (asked words.now (F.holds shelf.old) (F.faults shelf.old) (F.faults shelf.new)) (told (K.written out.old) (K.written out.new) (K.faults out.old) (K.faults out.new)) result }
    ensures usage { AppendedPart (N.written notes.old) (N.written notes.new) (usage_for words.now) }
{
    tell_usage(words, notes);
    code(run_status(rt, alloc, words, shelf, out, gate))
}

// What `run_program` does where memory was wanting for the words.
#[tactic(auto, using(crate::proofs::Numbers::numbers))]
fn run_nothing<K: Sink>(out: &mut K) -> u8
    ensures ends { (a : Asked) → EndsAsNumber a (told (K.written out.old) (K.written out.new) (K.faults out.old) (K.faults out.new)) result }
    ensures number { result ≡ code_of Status.NoMemory }
{
    let outcome = without_memory(None, out);
    code(outcome.status)
}

/// The whole program, from what the system gives as its arguments to the number that it ends with: does what the words
/// after the first ask, as `run_main`. Where no word is given, or `--help` alone, how it is used goes to the notes; where
/// memory was wanting for the words, nothing is done and the number says so.
#[tactic(auto, using(crate::proofs::Numbers::numbers))]
pub fn run_program<R: Threads + Wait + Sync, F: Shelf, K: Sink, N: Sink, G: Gate + Sync>(
    rt: &R,
    alloc: Global,
    args: Result<IntoIter<String>, WordsFault>,
    shelf: &mut F,
    out: &mut K,
    notes: &mut N,
    gate: &G,
) -> u8
    ensures ends { EndsAsNumber (asked (given_words args) (F.holds shelf.old) (F.faults shelf.old) (F.faults shelf.new)) (told (K.written out.old) (K.written out.new) (K.faults out.old) (K.faults out.new)) result }
    ensures usage { AppendedPart (N.written notes.old) (N.written notes.new) (usage_for (given_words args)) }
    ensures memory { args ≡ Err WordsFault.NoMemory → result ≡ code_of Status.NoMemory }
{
    match given_words(alloc, args) {
        Ok(words) => run_words(rt, alloc, words.as_slice(), shelf, out, notes, gate),
        Err(NoMemory) => run_nothing(out),
    }
}
