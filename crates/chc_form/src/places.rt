// The test of lemmas that the engines ask for.

ghost use Rattle.std.specs.Prelude.{◌≡◌, slice_get};
ghost use Rattle.std.specs.List.{list_all};
ghost use Rattle.chc_form.specs.WellMade.{is_of_type, is_key_of_type, is_key_term, are_key_terms, is_read, is_term, is_lit, is_lemma_of, of_system};

use crate::lemma::{KeyTerm, Lemma, Lit, LitTerm};
use crate::sorts::{are_sized, is_number, same_type};
use crate::system::{Sort, System};
use chc_nums::Ty;

/// Whether the lemma's predicate is there, it has at most two bound keys, of sizes from 1 to 12, and each term of its
/// literals is one on the predicate's places and the bound keys.
#[tactic(auto, unfolding(crate::specs::WellMade::of_system))]
pub fn of_system(s: &System, l: &Lemma) -> bool
    ensures { result ≡ of_system s.now l.now }
{
    match s.preds.get(l.pred as usize) {
        None => false,
        Some(places) => is_lemma_on(places.as_slice(), l),
    }
}

fn is_of_type(places: &[Sort], i: u32, ty: Ty) -> bool
    ensures { result ≡ is_of_type (slice_get places.now i) ty }
{
    match places.get(i as usize) {
        Some(Sort::Whole(own)) => same_type(*own, ty),
        Some(Sort::Free | Sort::Map(..)) | None => false,
    }
}

fn is_key_of_type(keys: &[Ty], i: u32, ty: Ty) -> bool
    ensures { result ≡ is_key_of_type (slice_get keys.now i) ty }
{
    match keys.get(i as usize) {
        None => false,
        Some(own) => same_type(*own, ty),
    }
}

fn is_key_term(places: &[Sort], keys: &[Ty], ty: Ty, key: KeyTerm) -> bool
    ensures { result ≡ is_key_term places.now keys.now ty key }
{
    match key {
        KeyTerm::Arg(i) => is_of_type(places, i, ty),
        KeyTerm::Key(i) => is_key_of_type(keys, i, ty),
    }
}

fn are_key_terms(places: &[Sort], keys: &[Ty], types: &[Ty], at: &[KeyTerm]) -> bool
    ensures { result ≡ are_key_terms places.now keys.now types.now at.now }
{
    let mut ts = types;
    let mut ks = at;
    while let [t, more_ts @ ..] = ts {
        match ks {
            [] => return false,
            [k, more_ks @ ..] => {
                if !is_key_term(places, keys, *t, *k) {
                    return false;
                }
                ts = more_ts;
                ks = more_ks;
            }
        }
    }
    ks.is_empty()
}

fn is_read(places: &[Sort], keys: &[Ty], i: u32, at: &[KeyTerm]) -> bool
    ensures { result ≡ is_read places.now keys.now (slice_get places.now i) at.now }
{
    match places.get(i as usize) {
        Some(Sort::Map(types, _)) => are_key_terms(places, keys, types.as_slice(), at),
        Some(Sort::Whole(_) | Sort::Free) | None => false,
    }
}

fn is_term(places: &[Sort], keys: &[Ty], term: &LitTerm) -> bool
    ensures { result ≡ is_term places.now keys.now term.now }
{
    match term {
        LitTerm::Arg(i) => is_number(places, *i),
        LitTerm::Key(i) => (*i as usize) < keys.len(),
        LitTerm::Read(i, at) => is_read(places, keys, *i, at.as_slice()),
    }
}

fn is_lit(places: &[Sort], keys: &[Ty], l: &Lit) -> bool
    ensures { result ≡ is_lit places.now keys.now l.now }
{
    let terms = l.terms.as_slice();
    terms.iter().all(|term| is_term(places, keys, &term.0))
}

fn are_lits(places: &[Sort], keys: &[Ty], lits: &[Lit]) -> bool
    ensures { result ≡ list_all (is_lit places.now keys.now) lits.now }
{
    lits.iter().all(|l| is_lit(places, keys, l))
}

fn is_lemma_on(places: &[Sort], l: &Lemma) -> bool
    ensures { result ≡ is_lemma_of (Some places.now) l.now }
{
    let keys = l.keys.as_slice();
    l.keys.len() < 3 && are_sized(keys) && are_lits(places, keys, l.lits.as_slice())
}
