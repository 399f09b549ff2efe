// Numbers, and what can't be told of a declaration.

ghost use Rattle.std.specs.Prelude.{◌≡◌, ◌+◌, IfOk};
ghost use Rattle.sol_judged.specs.declared.tables.Meaning.TheVariants as means;
ghost use Rattle.sol_unit.specs.Reads.{Tells};
ghost use Rattle.sol_unit.specs.Added.{Adds, added_if_read};

use chc_nums::NoMemory;

/// The number of a place.
pub fn number(place: usize) -> Result<u32, NoMemory>
    ensures { IfOk result (λ n. n ≡ place) }
{
    match u32::try_from(place) {
        Ok(number) => Ok(number),
        Err(_) => Err(NoMemory),
    }
}

/// The number after another.
pub fn next(number: u32) -> Result<u32, NoMemory>
    ensures { IfOk result (λ n. n ≡ number + 1) }
{
    match number.checked_add(1) {
        None => Err(NoMemory),
        Some(next) => Ok(next),
    }
}
