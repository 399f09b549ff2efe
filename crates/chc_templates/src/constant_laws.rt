// What the list of constants is.

ghost use Rattle.std.specs.Prelude.{◌≡◌, List};
ghost use Rattle.std.specs.List.{list_any};
ghost use Rattle.std.specs.Ordering.{int_eq};
ghost use lib.IntN.{ℤ};
ghost use Rattle.chc_templates.specs.Constants.{ordered, InOrder};

/// Numbers in order are each before all that follow, and so distinct, and they are just the numbers given.
pub fn constant_law()
    ensures order { (xs : List ℤ) → InOrder (ordered xs) }
    ensures members { (xs : List ℤ) (z : ℤ) → list_any (int_eq z) (ordered xs) ≡ list_any (int_eq z) xs }
{}
