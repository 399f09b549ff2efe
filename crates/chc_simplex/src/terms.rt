// Sums of products of variables that ascend.

ghost use Rattle.std.specs.Prelude.{◌≡◌, ◌<◌, length, Some, [], ◌∷◌, ◌*ℤ◌, IfSome, MatchOption};
ghost use Rattle.chc_nums.specs.Wide.{in_128};
ghost use Rattle.chc_simplex.specs.Outcomes.{Gives};
ghost use Rattle.chc_simplex.specs.Terms.{Ascends, coefficient, others, scaled_onto, both, merged, pushed};

use crate::data::Stop;
use chc_nums::{List, mul_add_in, product};
use std::alloc::Global;

/// What a merge multiplies its two sums by.
#[derive(Clone, Copy, Debug, PartialEq, Eq)]
pub struct Factors {
    pub left: i128,
    pub right: i128,
}

/// The coefficient of a variable, 0 where it doesn't stand in the sum.
pub fn coefficient(terms: &[(usize, i128)], variable: usize) -> i128
    ensures { result ≡ coefficient terms.now variable }
{
    let mut rest = terms;
    while let [(v, a), more @ ..] = rest {
        if *v == variable {
            return *a;
        }
        rest = more;
    }
    0
}

/// The coefficient of a variable in a sum whose variables ascend. The search ends where the variable would stand.
#[tactic(auto, using(crate::proofs::Ascending::searches))]
pub fn coefficient_in_order(terms: &[(usize, i128)], variable: usize) -> i128
    requires { Ascends 0 terms.now }
    ensures { result ≡ coefficient terms.now variable }
{
    let mut rest = terms;
    while let [(v, a), more @ ..] = rest {
        if *v == variable {
            return *a;
        }
        if *v > variable {
            return 0;
        }
        rest = more;
    }
    0
}

// A term more at the end, which vanishes where its coefficient is 0.
#[tactic(auto, unfolding(crate::specs::Terms::pushed))]
fn pushed(
    made: List<(usize, i128)>,
    variable: usize,
    number: Option<i128>,
) -> Result<List<(usize, i128)>, Stop>
    ensures { Gives result (pushed made variable number) }
{
    let mut made = made;
    let Some(a) = number else {
        return Err(Stop::Wide);
    };
    if a != 0 {
        made.push((variable, a))?;
    }
    Ok(made)
}

// The first term and the terms after it.
fn first_term(terms: &[(usize, i128)]) -> Option<(usize, i128, &[(usize, i128)])>
    ensures { MatchOption result (terms.now ≡ []) (λ x. terms.now ≡ (x.0, x.1) ∷ x.2.now) }
{
    match terms {
        [] => None,
        [(v, a), more @ ..] => Some((*v, *a, more)),
    }
}

// The first term of another variable than this one, and the terms after it.
fn first_other(skipped: usize, terms: &[(usize, i128)]) -> Option<(usize, i128, &[(usize, i128)])>
    ensures first { MatchOption result (others skipped terms.now ≡ []) (λ x. others skipped terms.now ≡ (x.0, x.1) ∷ others skipped x.2.now) }
    ensures fewer { IfSome result (λ x. length x.2.now < length terms.now) }
{
    let mut rest = terms;
    while let [(v, a), more @ ..] = rest {
        if *v != skipped {
            return Some((*v, *a, more));
        }
        rest = more;
    }
    None
}

// A product more at the end.
fn pushed_product(
    made: List<(usize, i128)>,
    variable: usize,
    c: i128,
    a: i128,
) -> Result<List<(usize, i128)>, Stop>
    ensures { Gives result (pushed made variable (in_128 (c *ℤ a))) }
{
    pushed(made, variable, product(c, a))
}

// Two products in one term at the end.
fn pushed_both(
    made: List<(usize, i128)>,
    variable: usize,
    factors: &Factors,
    a: i128,
    b: i128,
) -> Result<List<(usize, i128)>, Stop>
    ensures { Gives result (pushed made variable (both factors.now.left a factors.now.right b)) }
{
    pushed(
        made,
        variable,
        mul_add_in(factors.left, a, factors.right, b),
    )
}

// More terms at the end, each times the right factor.
#[tactic(auto, using(crate::proofs::Merging::merges))]
fn scaled(
    made: List<(usize, i128)>,
    factors: &Factors,
    terms: &[(usize, i128)],
) -> Result<List<(usize, i128)>, Stop>
    ensures { Gives result (scaled_onto made factors.now.right terms.now) }
{
    let mut made = made;
    let mut rest = terms;
    while let Some((v, a, more)) = first_term(rest) {
        made = pushed_product(made, v, factors.right, a)?;
        rest = more;
    }
    Ok(made)
}

/// The left factor times one sum, but for the term of one variable, and the right factor times another, with no term
/// at 0.
#[tactic(auto, using(crate::proofs::Merging::merges))]
pub fn merged(
    alloc: Global,
    factors: &Factors,
    skipped: usize,
    ts: &[(usize, i128)],
    us: &[(usize, i128)],
) -> Result<List<(usize, i128)>, Stop>
    ensures { Gives result (merged factors.now.left factors.now.right (others skipped ts.now) us.now) }
{
    let mut made = List::with_capacity(alloc, ts.len() + us.len())?;
    let mut left = ts;
    let mut right = us;
    while let Some((v, a, more_left)) = first_other(skipped, left) {
        match first_term(right) {
            None => {
                made = pushed_product(made, v, factors.left, a)?;
                left = more_left;
            }
            Some((w, b, more_right)) => {
                if v < w {
                    made = pushed_product(made, v, factors.left, a)?;
                    left = more_left;
                } else if w < v {
                    made = pushed_product(made, w, factors.right, b)?;
                    right = more_right;
                } else {
                    made = pushed_both(made, v, factors, a, b)?;
                    left = more_left;
                    right = more_right;
                }
            }
        }
    }
    scaled(made, factors, right)
}
