// One round over the candidates that are left. It goes rule by rule, so that what is the same for all candidates at a rule
// is made once.

ghost use Rattle.std.specs.Prelude.{◌≡◌, ◌<◌, ◌^◌, ◌==◌, ◌++◌, ℕ, List, true, length, map, Some, slice_get, IfOk};
ghost use Rattle.chc_form.specs.declared.system.System.{System};
ghost use Rattle.chc_form.specs.declared.lemma.Lemma.{Lemma};
ghost use Rattle.chc_form.specs.WellMade.{well_made};
ghost use Rattle.chc_reduce.specs.Premises.{ArePremises, InOrder};
ghost use Rattle.chc_houdini.specs.Drops.{is_named, left_in};
ghost use Rattle.chc_houdini.specs.Rounds.{noted, no_round, round_of};
ghost use Rattle.chc_houdini.specs.Candidates.{candidates_from, taken, turned, judged_by, gathered};

use crate::greatest::RoundStop;
use chc_ask::{Answer, Asked, Open, ask_goal};
use chc_form::{Lemma, Limits, Rule, System};
use chc_nums::{List, NoMemory};
use chc_reduce::Premises;
use std::alloc::Global;

// What asking rule by rule says of a candidate: multipliers for each rule on its predicate, or the first that stays open.
#[derive(Drop)]
pub enum Judged {
    Shown(List<List<i128>>),
    Stopped(u32, Open),
}

// A candidate of a round, by its number, and what the rules that were asked so far say of it.
#[derive(Drop)]
pub struct Candidate {
    number: u32,
    lemma: Lemma,
    judged: Judged,
}

// A candidate after one rule more, and the rule's premises for the next one.
#[derive(Drop)]
struct Turn {
    candidate: Candidate,
    premises: Premises,
}

// The drops of a round, and multipliers for the candidates after the last of them.
#[derive(Drop)]
pub struct Round {
    pub drops: List<RoundStop>,
    pub proofs: List<List<i128>>,
}

// Entries, and further ones after them.
pub fn joined<T: Drop>(list: List<T>, more: List<T>) -> Result<List<T>, NoMemory>
    ensures { IfOk result (λ all. all ≡ list ++ more) }
{
    let mut all = list.into_vec();
    let mut added = more.into_vec();
    all.append(&mut added)?;
    Ok(List::from_vec(all))
}

// ---- the candidates of a round

fn is_named(drops: &[RoundStop], round: u32, lemma: u32) -> bool
    ensures { result ≡ is_named drops.now round lemma }
{
    drops.iter().any(|d| d.round < round && d.lemma == lemma)
}

pub fn lemmas_left(
    alloc: Global,
    drops: &[RoundStop],
    round: u32,
    from: &[Lemma],
) -> Result<List<Lemma>, NoMemory>
    requires { length from.now < 2 ^ 32 }
    ensures { IfOk result (λ list. list ≡ left_in drops.now from.now round) }
{
    let mut left = List::new(alloc);
    let mut k = 0u32;
    let mut rest = from;
    while let [lemma, more @ ..] = rest {
        if !is_named(drops, round, k) {
            left.push(lemma.copy(alloc)?)?;
        }
        k += 1;
        rest = more;
    }
    Ok(left)
}

// The same candidates with their numbers, of which nothing is said yet.
fn candidates_in(
    alloc: Global,
    drops: &[RoundStop],
    round: u32,
    from: &[Lemma],
) -> Result<List<Candidate>, NoMemory>
    requires { length from.now < 2 ^ 32 }
    ensures { IfOk result (λ list. list ≡ candidates_from drops.now round 0 from.now) }
{
    let mut candidates = List::new(alloc);
    let mut number = 0u32;
    let mut rest = from;
    while let [lemma, more @ ..] = rest {
        if !is_named(drops, round, number) {
            candidates.push(Candidate {
                number,
                lemma: lemma.copy(alloc)?,
                judged: Judged::Shown(List::new(alloc)),
            })?;
        }
        number += 1;
        rest = more;
    }
    Ok(candidates)
}

// ---- judging

fn taken(rule: u32, made: List<List<i128>>, asked: Asked) -> Result<Judged, NoMemory>
    ensures { IfOk result (λ j. j ≡ taken rule made asked) }
{
    match asked {
        Asked::Refuted(multipliers) => {
            let mut made = made;
            made.push(multipliers)?;
            Ok(Judged::Shown(made))
        }
        Asked::Open(left) => Ok(Judged::Stopped(rule, left)),
    }
}

// A candidate asked at one rule more, where it isn't stopped yet and the rule's head is on its predicate.
fn turned(
    alloc: Global,
    limits: Limits,
    j: u32,
    rule: &Rule,
    candidate: Candidate,
    premises: Premises,
) -> Result<Turn, NoMemory>
    requires { InOrder premises }
    ensures said { IfOk result (λ t. (s : System) (have : List Lemma) → ArePremises s j have premises → t.candidate ≡ turned s limits have j rule.now candidate) }
    ensures same { IfOk result (λ t. t.premises ≡ premises) }
{
    let Candidate {
        number,
        lemma,
        judged,
    } = candidate;
    match judged {
        Judged::Stopped(at, left) => Ok(Turn {
            candidate: Candidate {
                number,
                lemma,
                judged: Judged::Stopped(at, left),
            },
            premises,
        }),
        Judged::Shown(made) => {
            if rule.head.pred != lemma.pred {
                return Ok(Turn {
                    candidate: Candidate {
                        number,
                        lemma,
                        judged: Judged::Shown(made),
                    },
                    premises,
                });
            }
            let Answer { asked, premises } = ask_goal(alloc, premises, &lemma, limits)?;
            let judged = taken(j, made, asked)?;
            Ok(Turn {
                candidate: Candidate {
                    number,
                    lemma,
                    judged,
                },
                premises,
            })
        }
    }
}

// All candidates asked at one rule more.
#[tactic(auto, using(crate::proofs::Judging::rules))]
fn judged_at(
    alloc: Global,
    s: &System,
    limits: Limits,
    have: &[Lemma],
    j: u32,
    rule: &Rule,
    candidates: List<Candidate>,
) -> Result<List<Candidate>, NoMemory>
    requires made { well_made s.now ≡ true }
    requires there { slice_get s.now.rules j ≡ Some rule.now }
    ensures { IfOk result (λ list. list ≡ map (turned s.now limits have.now j rule.now) candidates) }
{
    let mut premises = Premises::new(alloc, s, j, have)?;
    let mut made = List::new(alloc);
    for candidate in candidates.into_vec() {
        let turn = turned(alloc, limits, j, rule, candidate, premises)?;
        made.push(turn.candidate)?;
        premises = turn.premises;
    }
    Ok(made)
}

// All candidates asked at all rules.
#[tactic(auto, using(crate::proofs::Judging::turns, chc_reduce::proofs::Few::numbers))]
fn judged_by(
    alloc: Global,
    s: &System,
    limits: Limits,
    have: &[Lemma],
    candidates: List<Candidate>,
) -> Result<List<Candidate>, NoMemory>
    requires { well_made s.now ≡ true }
    ensures { IfOk result (λ list. list ≡ judged_by s.now limits have.now 0 s.now.rules candidates) }
{
    let mut candidates = candidates;
    let mut j = 0u32;
    let mut rest = s.rules.as_slice();
    while let [rule, more @ ..] = rest {
        candidates = judged_at(alloc, s, limits, have, j, rule, candidates)?;
        j += 1;
        rest = more;
    }
    Ok(candidates)
}

fn note(
    alloc: Global,
    round: u32,
    lemma: u32,
    so_far: Round,
    judged: Judged,
) -> Result<Round, NoMemory>
    ensures { IfOk result (λ r. r ≡ noted round lemma so_far judged) }
{
    let Round { drops, proofs } = so_far;
    match judged {
        Judged::Shown(more) => Ok(Round {
            drops,
            proofs: joined(proofs, more)?,
        }),
        Judged::Stopped(rule, left) => {
            let mut drops = drops;
            drops.push(RoundStop {
                round,
                lemma,
                rule,
                left,
            })?;
            Ok(Round {
                drops,
                proofs: List::new(alloc),
            })
        }
    }
}

// The drops of a round, and the multipliers.
#[tactic(auto, using(crate::proofs::Judging::gathers))]
fn gathered(alloc: Global, round: u32, candidates: List<Candidate>) -> Result<Round, NoMemory>
    ensures { IfOk result (λ r. r ≡ gathered round no_round candidates) }
{
    let mut so_far = Round {
        drops: List::new(alloc),
        proofs: List::new(alloc),
    };
    for candidate in candidates.into_vec() {
        so_far = note(alloc, round, candidate.number, so_far, candidate.judged)?;
    }
    Ok(so_far)
}

#[tactic(auto, using(crate::proofs::Judging::round))]
pub fn round_of(
    alloc: Global,
    s: &System,
    limits: Limits,
    have: &[Lemma],
    earlier: &[RoundStop],
    round: u32,
    from: &[Lemma],
) -> Result<Round, NoMemory>
    requires made { well_made s.now ≡ true }
    requires few { length from.now < 2 ^ 32 }
    ensures { IfOk result (λ r. r ≡ round_of s.now limits have.now earlier.now round from.now) }
{
    let candidates = candidates_in(alloc, earlier, round, from)?;
    let judged = judged_by(alloc, s, limits, have, candidates)?;
    gathered(alloc, round, judged)
}
