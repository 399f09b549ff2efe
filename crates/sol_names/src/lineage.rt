// The order of a contract and its bases.

ghost use Rattle.std.specs.Option.{option_map};
ghost use Rattle.sol_names.specs.Orders.{Orders};

use crate::contracts::{base_graph, chosen, contracts, twice_named};
use crate::fault::NameFault;
use crate::linearize::linearized;
use crate::supplied::is_abstract;
use crate::units::name_place;
use chc_nums::List;
use sol_tree::{File, Unit};
use std::alloc::Global;

/// A linearization, as places among the units of a file: the contract first, then its bases, the most derived first.
#[derive(Debug, Drop)]
pub struct Lineage {
    pub units: List<u32>,
}

fn order_of_units<'a>(
    alloc: Global,
    units: &'a [Unit],
    contract: Option<&'a str>,
) -> Result<Lineage, NameFault>
    ensures { Orders units.now (option_map (λ r. r.now) contract.entry) result }
{
    if let Some(at) = twice_named(alloc, units)? {
        return Err(NameFault::TwiceNamed { at });
    }
    let numbers = contracts(alloc, units)?;
    let Some(place) = chosen(&numbers, units, contract)? else {
        return Err(NameFault::NoContract);
    };
    let graph = base_graph(alloc, &numbers, units)?;
    if let Some(at) = graph.unknown {
        return Err(NameFault::UnknownBase { at });
    }
    let at = name_place(units, place);
    let Some(order) = linearized(alloc, graph.bases.as_slice(), place)? else {
        return Err(NameFault::NoOrder { at });
    };
    if is_abstract(alloc, units, place, order.as_slice())? {
        return Err(NameFault::Abstract { at });
    }
    Ok(Lineage { units: order })
}

/// The linearization of the contract with this name, or without one of the last contract of the file that is neither abstract
/// nor an interface. A fault comes exactly where it is the first, in the order in which `NameFault` lists them, that the file
/// has.
pub fn order<'a>(
    alloc: Global,
    file: &'a File,
    contract: Option<&'a str>,
) -> Result<Lineage, NameFault>
    ensures { Orders file.now.units (option_map (λ r. r.now) contract.entry) result }
{
    order_of_units(alloc, file.units.as_slice(), contract)
}
