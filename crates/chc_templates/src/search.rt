// The candidates.

ghost use Rattle.std.specs.Prelude.{◌≡◌, ◌+◌, ◌<◌, ◌^◌, [], ◌∷◌, ◌++◌, length, take, true, None, Some, neg_ℤ, if◌then◌else◌, IfOk};
ghost use Rattle.std.specs.List.{list_all};
ghost use Rattle.chc_nums.specs.declared.limits.TheConstants.{MAX_CANDIDATES};
ghost use Rattle.chc_nums.specs.Types.{IsType};
ghost use Rattle.chc_form.specs.WellMade.{is_sort, all_few, well_made};
ghost use Rattle.chc_templates.specs.Candidates.{splits, konst_for, lemma_on, on_place, on_places, on_preds, on_numbers, candidates_of};

use crate::comparisons::constants;
use chc_form::{Lemma, Lit, LitTerm, Sort, System};
use chc_nums::{List, MAX_CANDIDATES, NoMemory, Ty, opposite, range};
use std::alloc::Global;

// The constant of the literal that a number of the type is at most k.
#[tactic(auto, using(crate::proofs::Splitting::splitting))]
fn constant_for(k: i128, ty: Ty) -> Option<i128>
    requires { IsType ty }
    ensures { result ≡ (if splits k ty then Some (neg_ℤ k) else None) }
{
    let (least, greatest) = range(ty);
    if k < least || greatest <= k {
        return None;
    }
    opposite(k)
}

#[tactic(auto, using(crate::proofs::Splitting::splitting), unfolding(crate::specs::Candidates::konst_for))]
fn constant_of(k: i128, sort: &Sort) -> Option<i128>
    requires { is_sort sort.now ≡ true }
    ensures { result ≡ konst_for k sort.now }
{
    match sort {
        Sort::Whole(Ty::Bool) => constant_for(k, Ty::Bool),
        Sort::Whole(Ty::Uint(size)) => constant_for(k, Ty::Uint(*size)),
        Sort::Whole(Ty::Int(size)) => constant_for(k, Ty::Int(*size)),
        Sort::Whole(Ty::Addr) | Sort::Free | Sort::Map(..) => None,
    }
}

fn lemma_on(alloc: Global, pred: u32, place: u32, konst: i128) -> Result<Lemma, NoMemory>
    ensures { IfOk result (λ l. l ≡ lemma_on pred place konst) }
{
    let mut terms = List::new(alloc);
    terms.push((LitTerm::Arg(place), 1))?;
    let mut lits = List::new(alloc);
    lits.push(Lit { terms, konst })?;
    Ok(Lemma {
        pred,
        keys: List::new(alloc),
        lits,
    })
}

// The first 1,024 of some lemmas.
fn cut(lemmas: List<Lemma>) -> List<Lemma>
    ensures { result ≡ take MAX_CANDIDATES lemmas }
{
    let mut items = lemmas.into_vec();
    items.truncate(MAX_CANDIDATES);
    List::from_vec(items)
}

#[tactic(auto, using(crate::proofs::Splitting::places))]
fn with_place(
    alloc: Global,
    made: List<Lemma>,
    k: i128,
    pred: u32,
    place: u32,
    sort: &Sort,
) -> Result<List<Lemma>, NoMemory>
    requires { is_sort sort.now ≡ true }
    ensures { IfOk result (λ ls. ls ≡ take MAX_CANDIDATES (made ++ on_place k pred place sort.now)) }
{
    if made.len() >= MAX_CANDIDATES {
        return Ok(cut(made));
    }
    match constant_of(k, sort) {
        None => Ok(cut(made)),
        Some(konst) => {
            let mut made = made;
            made.push(lemma_on(alloc, pred, place, konst)?)?;
            Ok(cut(made))
        }
    }
}

#[tactic(auto, using(crate::proofs::Splitting::steps))]
fn with_places(
    alloc: Global,
    made: List<Lemma>,
    k: i128,
    pred: u32,
    sorts: &[Sort],
) -> Result<List<Lemma>, NoMemory>
    requires few { length sorts.now < 2 ^ 31 }
    requires sorts { list_all is_sort sorts.now ≡ true }
    ensures { IfOk result (λ ls. ls ≡ take MAX_CANDIDATES (made ++ on_places k pred 0 sorts.now)) }
{
    let mut made = made;
    let mut place = 0;
    let mut rest = sorts;
    while let [sort, more @ ..] = rest {
        made = with_place(alloc, made, k, pred, place, sort)?;
        place += 1;
        rest = more;
    }
    Ok(cut(made))
}

#[tactic(auto, using(crate::proofs::Splitting::steps))]
fn with_preds(
    alloc: Global,
    made: List<Lemma>,
    k: i128,
    preds: &[List<Sort>],
) -> Result<List<Lemma>, NoMemory>
    requires few { length preds.now < 2 ^ 31 }
    requires sorts { list_all (all_few is_sort) preds.now ≡ true }
    ensures { IfOk result (λ ls. ls ≡ take MAX_CANDIDATES (made ++ on_preds k 0 preds.now)) }
{
    let mut made = made;
    let mut pred = 0;
    let mut rest = preds;
    while let [sorts, more @ ..] = rest {
        made = with_places(alloc, made, k, pred, sorts.as_slice())?;
        pred += 1;
        rest = more;
    }
    Ok(cut(made))
}

#[tactic(auto, using(crate::proofs::Splitting::steps))]
fn on_numbers(
    alloc: Global,
    numbers: &[i128],
    preds: &[List<Sort>],
) -> Result<List<Lemma>, NoMemory>
    requires few { length preds.now < 2 ^ 31 }
    requires sorts { list_all (all_few is_sort) preds.now ≡ true }
    ensures { IfOk result (λ ls. ls ≡ take MAX_CANDIDATES (on_numbers preds.now numbers.now)) }
{
    let mut made = List::new(alloc);
    let mut rest = numbers;
    while let [k, more @ ..] = rest {
        made = with_preds(alloc, made, *k, preds)?;
        rest = more;
    }
    Ok(cut(made))
}

// The first eight of some numbers.
fn first_eight(numbers: List<i128>) -> List<i128>
    ensures { result ≡ take 8 numbers }
{
    let mut items = numbers.into_vec();
    items.truncate(8);
    List::from_vec(items)
}

/// For each of the system's first eight constants, each predicate, and each argument that is an integer or a truth
/// value: the lemma that the argument is at most the constant, where that is true of some numbers of its type and not
/// of others. The first 1,024 of them.
///
/// The constants are 0, 1, and the numbers with which a `Le` or a `Differ` compares one variable with coefficient 1 or
/// -1, by their distance from 0. The time is linear in the constraints, and in the arguments of the predicates. An
/// error says that memory ran out.
#[tactic(auto, using(crate::proofs::Large::wholes))]
pub fn candidates(alloc: Global, s: &System) -> Result<List<Lemma>, NoMemory>
    requires { well_made s.now ≡ true }
    ensures equals { IfOk result (λ ls. ls ≡ candidates_of s.now) }
{
    let numbers = first_eight(constants(alloc, s)?);
    on_numbers(alloc, numbers.as_slice(), s.preds.as_slice())
}
