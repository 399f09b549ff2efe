// A contract of the first language, with its variables by number.

use chc_nums::{List, Name};

/// A state variable of type `uintN`: N in bytes, from 1 to 12, and its name.
#[derive(Drop)]
pub struct Variable {
    pub size: u8,
    pub name: Name,
}

/// A comparison with a number.
#[derive(Clone, Copy, Debug, PartialEq, Eq)]
pub enum Order {
    Less,
    LessEqual,
    Greater,
    GreaterEqual,
}

/// A statement. Variables go by their places among the contract's; a line and a column, from 1, are those of the word
/// `assert` or of the operator.
#[derive(Clone, Copy, Debug, PartialEq, Eq)]
pub enum Step {
    /// `require(x < n);`
    Require {
        variable: u32,
        order: Order,
        number: i128,
    },
    /// `assert(x < n);`
    Assert {
        line: u32,
        col: u32,
        variable: u32,
        order: Order,
        number: i128,
    },
    /// `x = n;`
    Put {
        to: u32,
        number: i128,
    },
    /// `x = y;`
    Move {
        to: u32,
        from: u32,
    },
    /// `x = y + n;`
    Add {
        line: u32,
        col: u32,
        to: u32,
        from: u32,
        number: i128,
    },
    /// `x = y - n;`
    Subtract {
        line: u32,
        col: u32,
        to: u32,
        from: u32,
        number: i128,
    },
}

/// A public function without parameters.
#[derive(Drop)]
pub struct Function {
    pub name: Name,
    pub steps: List<Step>,
}

/// A contract.
#[derive(Drop)]
pub struct Contract {
    pub name: Name,
    pub variables: List<Variable>,
    pub functions: List<Function>,
}
