// Names, and maps from names to numbers.

ghost use Rattle.std.specs.Prelude.{◌≡◌, ℕ, List, map, IfOk, OnOk, Some, bytes_eq, if◌then◌else◌};
ghost use Rattle.sol_names.specs.Least.{lesser, least_from};
ghost use Rattle.sol_names.specs.Names.{identifier_of, number_of};
ghost use Rattle.sol_names.specs.Orders.{repeated};

use chc_nums::NoMemory;
use indexmap::IndexMap;
use std::alloc::Global;

// A name as it is written at a place.
#[derive(Clone, Copy)]
pub struct Named<'a> {
    pub at: u32,
    pub text: &'a str,
}

pub type Numbers<'a> = IndexMap<&'a str, u32>;

pub fn number_of<'a>(numbers: &Numbers<'a>, name: &'a str) -> Option<u32>
    ensures { result ≡ number_of numbers.now name.now }
{
    numbers.get(&name).copied()
}

pub fn set_number<'a>(numbers: &mut Numbers<'a>, name: &'a str, number: u32) -> Result<(), NoMemory>
    ensures { OnOk result ((q : List ℕ) → number_of numbers.new q ≡ (if bytes_eq name.now q then Some number else number_of numbers.old q)) }
{
    numbers.insert(name, number)?;
    Ok(())
}

pub fn lesser(least: Option<u32>, n: u32) -> Option<u32>
    ensures { result ≡ lesser least n }
{
    match least {
        None => Some(n),
        Some(m) => Some(m.min(n)),
    }
}

// The least place of a name that an earlier one is equal to, or a lesser one that is given.
pub fn least_repeated(
    alloc: Global,
    least: Option<u32>,
    names: &[Named<'_>],
) -> Result<Option<u32>, NoMemory>
    ensures { IfOk result (λ o. o ≡ least_from least (repeated (map identifier_of names.now))) }
{
    let mut least = least;
    let mut seen = IndexMap::new(alloc);
    let mut rest = names;
    while let [name, more @ ..] = rest {
        if number_of(&seen, name.text).is_some() {
            least = lesser(least, name.at);
        } else {
            set_number(&mut seen, name.text, name.at)?;
        }
        rest = more;
    }
    Ok(least)
}
