// The test of multipliers.

ghost use Rattle.std.specs.Prelude.{◌≡◌, ◌&&◌, ◌==◌, length, IfOk};
ghost use Rattle.chc_form.specs.Linear.{lins};
ghost use Rattle.chc_cert.specs.Passing.{none_negative, is_above, are_gone, passes};

use chc_form::{Row, constant_sum, variable_sums, width, zeros};
use chc_nums::{List, NoMemory};
use std::alloc::Global;

fn none_negative(multipliers: &[i128]) -> bool
    ensures { result ≡ none_negative multipliers.now }
{
    multipliers.iter().all(|m| *m >= 0)
}

fn is_above(sum: Option<i128>) -> bool
    ensures { result ≡ is_above sum }
{
    match sum {
        None => false,
        Some(c) => 0 < c,
    }
}

fn are_zero(sums: &[i128]) -> bool
    ensures { result ≡ are_gone (Some sums.now) }
{
    sums.iter().all(|sum| *sum == 0)
}

fn are_gone(sums: Option<List<i128>>) -> bool
    ensures { result ≡ are_gone sums }
{
    match sums {
        None => false,
        Some(sums) => are_zero(sums.as_slice()),
    }
}

/// Whether there are as many multipliers as rows and none is negative, and their sums stay within 128 bits, leave no
/// variable and have a constant above 0.
///
/// The time is linear in the terms and in the greatest variable. An error says that memory ran out.
#[tactic(auto, unfolding(crate::specs::Passing::passes))]
pub fn passes(alloc: Global, multipliers: &[i128], rows: &[Row]) -> Result<bool, NoMemory>
    ensures { IfOk result (λ b. b ≡ passes multipliers.now (lins rows.now)) }
{
    if multipliers.len() != rows.len()
        || !none_negative(multipliers)
        || !is_above(constant_sum(multipliers, rows))
    {
        return Ok(false);
    }
    let none = zeros(alloc, width(rows))?;
    Ok(are_gone(variable_sums(multipliers, rows, none)))
}
