// Sums over rows, each row times its multiplier, or none where a number leaves 128 bits.

ghost use Rattle.std.specs.Prelude.{◌≡◌, ◌≤◌, ◌^◌, pos, slice_set, IfOk};
ghost use Rattle.chc_form.specs.Linear.{lins};
ghost use Rattle.chc_form.specs.RowSums.{number_at, terms_width, width, with_term, with_row, variable_sums, constant_sum, zeros};

use crate::linear::Row;
use chc_nums::{List, NoMemory, add_product};
use std::alloc::Global;

// One more than the greatest variable of a row.
fn terms_width(terms: &[(u32, i128)]) -> usize
    ensures value { result ≡ terms_width terms.now }
    ensures few { result ≤ 2 ^ 32 }
{
    let mut width = 0;
    let mut rest = terms;
    while let [(v, _), more @ ..] = rest {
        width = width.max(*v as usize + 1);
        rest = more;
    }
    width
}

/// One more than the greatest variable of all rows.
pub fn width(rows: &[Row]) -> usize
    ensures value { result ≡ width (lins rows.now) }
    ensures few { result ≤ 2 ^ 32 }
{
    let mut width = 0;
    let mut rest = rows;
    while let [row, more @ ..] = rest {
        width = width.max(terms_width(row.lin.terms.as_slice()));
        rest = more;
    }
    width
}

/// So many zeros. An error says that memory ran out.
#[tactic(auto, using(crate::proofs::RowSums::repeats))]
pub fn zeros(alloc: Global, count: usize) -> Result<List<i128>, NoMemory>
    ensures { IfOk result (λ list. list ≡ zeros count) }
{
    let mut made = List::new(alloc);
    for _at in 0..count {
        made.push(0)?;
    }
    Ok(made)
}

/// An entry of a list of numbers, 0 past its end.
pub fn number_at(numbers: &[i128], at: usize) -> i128
    ensures { result ≡ number_at numbers.now at }
{
    match numbers.get(at) {
        Some(number) => *number,
        None => 0,
    }
}

// Puts a sum at a place; past the end nothing changes.
fn put(sums: &mut List<i128>, variable: usize, sum: i128)
    ensures { sums.new ≡ slice_set sums.old variable sum }
{
    if variable < sums.len() {
        sums.set(variable, sum);
    }
}

// The sums of the variables, with one term times its multiplier.
fn with_term(multiplier: i128, variable: usize, a: i128, sums: List<i128>) -> Option<List<i128>>
    ensures { result ≡ with_term multiplier (variable, a) sums }
{
    let mut sums = sums;
    let sum = add_product(number_at(sums.as_slice(), variable), multiplier, a)?;
    put(&mut sums, variable, sum);
    Some(sums)
}

// The sums of the variables, with a row's terms times its multiplier.
fn with_row(multiplier: &i128, terms: &[(u32, i128)], sums: List<i128>) -> Option<List<i128>>
    ensures { result ≡ with_row multiplier.now terms.now sums }
{
    let mut sums = sums;
    let mut rest = terms;
    while let [(v, a), more @ ..] = rest {
        sums = with_term(*multiplier, *v as usize, *a, sums)?;
        rest = more;
    }
    Some(sums)
}

/// The sums of the variables over the rows, added to sums that are there: a number for each variable, from 0 on. None where
/// a product or a sum leaves 128 bits.
pub fn variable_sums(multipliers: &[i128], rows: &[Row], sums: List<i128>) -> Option<List<i128>>
    ensures { result ≡ variable_sums multipliers.now (lins rows.now) sums }
{
    let mut sums = sums;
    let mut ms = multipliers;
    let mut rs = rows;
    while let [m, more_ms @ ..] = ms {
        match rs {
            [] => return Some(sums),
            [row, more_rs @ ..] => {
                sums = with_row(m, row.lin.terms.as_slice(), sums)?;
                ms = more_ms;
                rs = more_rs;
            }
        }
    }
    Some(sums)
}

/// The sum of the constants over the rows, or none where a product or a sum leaves 128 bits.
pub fn constant_sum(multipliers: &[i128], rows: &[Row]) -> Option<i128>
    ensures { result ≡ constant_sum (pos 0) multipliers.now (lins rows.now) }
{
    let mut so_far = 0;
    let mut ms = multipliers;
    let mut rs = rows;
    while let [m, more_ms @ ..] = ms {
        match rs {
            [] => return Some(so_far),
            [row, more_rs @ ..] => {
                so_far = add_product(so_far, *m, row.lin.konst)?;
                ms = more_ms;
                rs = more_rs;
            }
        }
    }
    Some(so_far)
}
