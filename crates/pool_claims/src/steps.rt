// The rule of the word, and what each step on it tells the seat that makes it.

ghost use Rattle.pool_claims.specs.Views.{claimed, first_of, rest_of, both_of, spent};

use crate::view::{Size, View};
use atomic_table::{Join, Play, Split, TableRule};

/// The rule of claims of such a size.
pub struct Numbers;

impl TableRule<(), View, Size> for Numbers {
    ghost use Rattle.pool_claims.specs.Counted.{Counted};
    ghost use Rattle.pool_claims.specs.Views.{beginner};

    ghost holds = { Counted };

    ghost first = { beginner };
}

// The fetch-add of a claim.
pub struct Claim;

impl Play<(), View> for Claim {
    ghost then = { claimed };
}

// A seat gives its first pass away.
pub struct Cut;

impl Split<View> for Cut {
    ghost left = { rest_of };

    ghost right = { first_of };
}

// A seat takes in the passes of another.
pub struct Glue;

impl Join<View> for Glue {
    ghost both = { both_of };

    ghost spent = { spent };
}
