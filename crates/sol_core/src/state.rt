// What a contract keeps between calls.

ghost use Rattle.std.specs.Prelude.{◌≡◌, []};

use chc_nums::List;
use std::alloc::Global;
use std::collections::BTreeMap;
use std::marker::Model;

/// A mapping's values, by pairs of keys whose second is 0 where there is one key. Contracts see it as the list of its
/// entries in the order of the keys; zeros are not kept.
#[derive(Drop)]
pub struct MapVal {
    held: BTreeMap<(i128, i128), i128>,
}

impl Model for MapVal {
    ghost use Rattle.std.specs.Prelude.{List};
    ghost use lib.IntN.{ℤ};
    ghost use Rattle.std.specs.Coded.{coded_list, coded_ℤ, coded×};

    ghost Value = { List ((ℤ × ℤ) × ℤ) };

    ghost coded = { coded_list (coded× (coded× coded_ℤ coded_ℤ) coded_ℤ) };

    ghost view = { λ map. map.held.entries };
}

impl MapVal {
    /// A mapping that is 0 everywhere.
    pub fn new(alloc: Global) -> MapVal
        ensures { result ≡ [] }
    {
        MapVal {
            held: BTreeMap::new(alloc),
        }
    }
}

/// The values of the scalars, mappings and arrays, by their places in the program.
#[derive(Drop)]
pub struct State {
    pub scalars: List<i128>,
    pub maps: List<MapVal>,
    pub arrays: List<List<i128>>,
}
