// The choices of arguments, of which no list has more than 4,096.

ghost use Rattle.std.specs.Prelude.{◌≡◌, ◌∷◌, [], take, IfOk, OnOk};
ghost use Rattle.std.specs.List.{flat_map};
ghost use Rattle.chc_nums.specs.declared.limits.TheConstants.{MAX_PROBES};
ghost use Rattle.sol_probe.specs.Filled.{filled};
ghost use Rattle.sol_probe.specs.Probes.{fronted, choices};

use crate::corners::corners;
use chc_nums::{List, MAX_PROBES, NoMemory, Ty};
use std::alloc::Global;

/// The first choices of arguments of types, the last argument the fastest.
#[tactic(auto, using(std::proofs::lemmas::Grind::common_steps, crate::proofs::Choosing::choosing))]
pub fn choices(alloc: Global, types: &[Ty]) -> Result<List<List<i128>>, NoMemory>
    ensures { IfOk result (λ all. all ≡ take MAX_PROBES (choices types.now)) }
{
    match types {
        [] => no_arguments(alloc),
        [ty, more @ ..] => {
            let rest = choices(alloc, more)?;
            let values = corners(alloc, *ty)?;
            fronts(alloc, values.as_slice(), rest.as_slice())
        }
    }
}

fn no_arguments(alloc: Global) -> Result<List<List<i128>>, NoMemory>
    ensures { IfOk result (λ all. all ≡ [] ∷ []) }
{
    let mut all = List::new(alloc);
    all.push(List::new(alloc))?;
    Ok(all)
}

#[tactic(auto, using(std::proofs::lemmas::Grind::common_steps, crate::proofs::Filling::filling))]
fn fronts(alloc: Global, values: &[i128], rest: &[List<i128>]) -> Result<List<List<i128>>, NoMemory>
    ensures { IfOk result (λ all. all ≡ take MAX_PROBES (flat_map (fronted rest.now) values.now)) }
{
    let mut all = List::new(alloc);
    for value in values {
        add_fronted(alloc, &mut all, value, rest)?;
    }
    Ok(all)
}

#[tactic(auto, using(std::proofs::lemmas::Grind::common_steps, crate::proofs::Filling::filling))]
fn add_fronted(
    alloc: Global,
    all: &mut List<List<i128>>,
    value: &i128,
    rest: &[List<i128>],
) -> Result<(), NoMemory>
    ensures { OnOk result (all.new ≡ filled all.old (fronted rest.now value.now)) }
{
    for values in rest {
        if all.len() >= MAX_PROBES {
            return Ok(());
        }
        all.push(in_front(alloc, *value, values.as_slice())?)?;
    }
    Ok(())
}

fn in_front(alloc: Global, value: i128, values: &[i128]) -> Result<List<i128>, NoMemory>
    ensures { IfOk result (λ all. all ≡ value ∷ values.now) }
{
    let mut all = Vec::new(alloc);
    all.push(value)?;
    all.extend_from_slice(values)?;
    Ok(List::from_vec(all))
}
