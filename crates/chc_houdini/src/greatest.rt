// The lemmas that are kept, and the rounds that drop the others.

ghost use Rattle.std.specs.Prelude.{◌≡◌, ◌<◌, ◌^◌, [], true, length, IfOk};
ghost use Rattle.chc_form.specs.WellMade.{well_made};
ghost use Rattle.chc_reduce.specs.Obligations.{obligations};
ghost use Rattle.chc_houdini.specs.Drops.{RightDrops, kept};
ghost use Rattle.chc_houdini.specs.Proofs.{AllAsked};

use crate::rounds::{joined, lemmas_left, round_of};
use chc_ask::Open;
use chc_form::{Lemma, Limits, System};
use chc_nums::{List, NoMemory};
use std::alloc::Global;

/// A drop: in this round, a candidate by its number, the first rule at whose head it stays open, and why.
#[derive(Drop)]
pub struct RoundStop {
    pub round: u32,
    pub lemma: u32,
    pub rule: u32,
    pub left: Open,
}

/// The candidates that are kept, multipliers for each of them and each rule on its predicate, the number of the round
/// that had no drop, and the drops of the rounds before it.
#[derive(Drop)]
pub struct Greatest {
    pub lemmas: List<Lemma>,
    pub proofs: List<List<i128>>,
    pub rounds: u32,
    pub drops: List<RoundStop>,
}

impl RoundStop {
    /// One that is equal to this.
    pub fn copy(&self, alloc: Global) -> Result<RoundStop, NoMemory>
        ensures { IfOk result (λ d. d ≡ self.now) }
    {
        Ok(RoundStop {
            round: self.round,
            lemma: self.lemma,
            rule: self.rule,
            left: self.left.copy(alloc)?,
        })
    }
}

/// The candidates that are left when in each round every candidate is dropped that the candidates of the round do not
/// show at each rule's head (Houdini). `NoMemory` also stands for what `chc_ask::ask` says.
#[tactic(auto, using(crate::proofs::Steps::steps))]
pub fn greatest_of(
    alloc: Global,
    s: &System,
    from: List<Lemma>,
    limits: Limits,
) -> Result<Greatest, NoMemory>
    requires made { well_made s.now ≡ true }
    requires few { length from < 2 ^ 32 }
    ensures right { IfOk result (λ g. RightDrops s.now limits from g.drops g.rounds) }
    ensures kept { IfOk result (λ g. g.lemmas ≡ kept g.drops from) }
    ensures proofs { IfOk result (λ g. AllAsked limits (obligations s.now [] g.lemmas) g.proofs) }
{
    let mut drops = List::new(alloc);
    let mut rounds = 0u32;
    'rounds: loop {
        let lemmas = lemmas_left(alloc, drops.as_slice(), rounds, from.as_slice())?;
        let round = round_of(
            alloc,
            s,
            limits,
            lemmas.as_slice(),
            drops.as_slice(),
            rounds,
            from.as_slice(),
        )?;
        if round.drops.is_empty() {
            return Ok(Greatest {
                lemmas,
                proofs: round.proofs,
                rounds,
                drops,
            });
        }
        drops = joined(drops, round.drops)?;
        rounds += 1;
    }
}
