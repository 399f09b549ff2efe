// What expressions are found to be. What they stand for is boxed, so that letting go of it is one call.

use crate::types::ValueType;
use sol_core::{Expr, Place};
use sqlite_items::{Boxed, Items};

/// A thing with a name that is no value.
#[derive(Clone, Copy, Debug)]
pub enum Thing {
    /// A function of the contract or a base, by its place among the functions: by its bare name, or as a member of `super`
    /// or a base.
    Function { function: u32, is_member: bool },
    /// `push` of an array, with the type of its elements.
    Push { array: u32, element: ValueType },
    /// `pop` of an array.
    Pop { array: u32 },
    /// A contract or an interface, by its place among the units of the file.
    Contract { unit: u32 },
    Interface { unit: u32 },
    /// A modifier, an event or an error.
    Other,
}

/// A call, before it is known whether it may stand where it stands.
#[derive(Drop)]
pub enum Call {
    /// A call of a function by its number in the program.
    Inner {
        number: u32,
        arguments: Items<Expr>,
        ret: Option<ValueType>,
        is_view: bool,
    },
    /// An external call of a function of an interface.
    Outer {
        number: u32,
        target: Boxed<Expr>,
        arguments: Items<Expr>,
        ret: Option<ValueType>,
    },
    /// A push of a value.
    Push {
        array: u32,
        value: Boxed<Expr>,
    },
    /// A pop; its target stands at a place.
    Pop {
        array: u32,
        at: u32,
    },
}

/// What an expression is found to be. The first place is that of the name by which it is called, where it is called by one.
#[derive(Drop)]
pub enum Found {
    /// The number of a literal expression.
    Literal(i128),
    /// A value that can't be assigned to.
    Value(Option<u32>, ValueType, Boxed<Expr>),
    /// A place with a value of a type.
    Place(Option<u32>, ValueType, Boxed<Place>),
    /// A mapping, with the keys so far.
    Mapping(Option<u32>, u32, Items<Expr>),
    /// An array, by its number, and the type of its elements.
    Array(u32, u32, ValueType),
    /// A thing that is no value, by its name at a place.
    Thing(u32, Thing),
    /// A function of an interface, by its name at a place, its number, and the contract that is called.
    Outer(u32, u32, Boxed<Expr>),
    /// A call, at its `(`.
    Call(u32, Boxed<Call>),
}

/// A value of a type.
#[derive(Drop)]
pub struct Value {
    pub ty: ValueType,
    pub expr: Boxed<Expr>,
}

/// Two values of one type.
#[derive(Drop)]
pub struct Pair {
    pub ty: ValueType,
    pub left: Boxed<Expr>,
    pub right: Boxed<Expr>,
}
