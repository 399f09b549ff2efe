// Names and types as they are written.

ghost use Rattle.std.specs.Prelude.{◌≡◌};
ghost use Rattle.sol_tree.specs.Places.{type_place_of};

use chc_nums::{Name, Ty};
use sqlite_items::Boxed;

/// A name, and the place of its first byte.
#[derive(Drop)]
pub struct Identifier {
    pub at: u32,
    pub name: Name,
}

/// A type. A mapping may name its key and its value.
#[derive(Drop)]
pub enum Type {
    /// `bool`, `address`, `uintN` or `intN`.
    Elementary {
        at: u32,
        ty: Ty,
    },
    /// `ID`
    Named {
        at: u32,
        name: Name,
    },
    /// `type [ ]`
    Array {
        at: u32,
        element: Boxed<Type>,
    },
    /// `mapping ( type [ID] => type [ID] )`
    Mapping {
        at: u32,
        key: Boxed<Type>,
        key_name: Option<Identifier>,
        value: Boxed<Type>,
        value_name: Option<Identifier>,
    },
}

impl Type {
    /// The place of its first token.
    pub fn at(&self) -> u32
        ensures { result ≡ type_place_of self.now }
    {
        match self {
            Type::Elementary { at, .. } => *at,
            Type::Named { at, .. } => *at,
            Type::Array { at, .. } => *at,
            Type::Mapping { at, .. } => *at,
        }
    }
}
