// The names of the kinds of targets.

ghost use Rattle.std.specs.Prelude.{◌≡◌};
ghost use Rattle.sol_core.specs.Kinds.{kind_word};

use crate::program::Kind;

/// A kind's name, as reports and command words have it.
pub fn kind_word(kind: Kind) -> &'static str
    ensures { result.now ≡ kind_word kind }
{
    match kind {
        Kind::Assert => "assert",
        Kind::Underflow => "underflow",
        Kind::Overflow => "overflow",
        Kind::DivByZero => "divByZero",
        Kind::OutOfBounds => "outOfBounds",
        Kind::PopEmptyArray => "popEmptyArray",
    }
}
