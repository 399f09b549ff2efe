// How far a worker has seen.

ghost use Rattle.std.specs.Prelude.{◌≡◌, IfOk};
ghost use Rattle.pool_core.specs.Marks.{starts};

use chc_nums::NoMemory;
use std::alloc::Global;

/// How many batches of a pool a worker has seen, and how many lemmas.
#[derive(Clone, Copy, Debug, PartialEq, Eq)]
pub struct Mark {
    pub batches: usize,
    pub lemmas: usize,
}

/// The marks of so many workers who have seen nothing.
#[tactic(auto, using(crate::proofs::Marking::starting))]
pub fn starts(alloc: Global, workers: u32) -> Result<Vec<Mark>, NoMemory>
    ensures { IfOk result (λ ms. ms.items ≡ starts workers) }
{
    let mut marks = Vec::new(alloc);
    for _worker in 0..workers {
        marks.push(Mark {
            batches: 0,
            lemmas: 0,
        })?;
    }
    Ok(marks)
}
