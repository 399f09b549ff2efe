// The tables of a linearization.

use chc_nums::List;
use sol_judged::{Constant, Function, MapType, ValueType};

/// What the members of a linearization declare, by number, and how many scalars, arrays, and functions with a body and constructors
/// there are.
#[derive(Drop)]
pub struct Tables {
    pub scalars: u32,
    pub arrays: u32,
    pub bodies: u32,
    pub constants: List<Constant>,
    pub maps: List<MapType>,
    pub functions: List<Function>,
    /// The parameters of each modifier, and whether it has a body.
    pub modifiers: List<List<ValueType>>,
    pub has_body: List<bool>,
    /// The parameters of each event and error.
    pub events: List<List<ValueType>>,
    pub errors: List<List<ValueType>>,
}
