// Expressions as they are written.

ghost use Rattle.std.specs.Prelude.{◌≡◌, pos};
ghost use Rattle.sol_tree.specs.Places.{place_of};
ghost use Rattle.sol_tree.specs.Precedence.{precedence};
ghost use Rattle.sol_tree.specs.Units.{multiplier};

use crate::types::{Identifier, Type};
use chc_nums::{Name, Ty};
use sqlite_items::{Boxed, Items};

/// What a number may be followed by.
#[derive(Clone, Copy, Debug, PartialEq, Eq)]
pub enum NumberUnit {
    Seconds,
    Minutes,
    Hours,
    Days,
    Weeks,
    Wei,
    Gwei,
    Ether,
}

impl NumberUnit {
    /// What the unit multiplies its number by: seconds for a time, wei for an amount.
    pub fn multiplier(self) -> i128
        ensures { result ≡ pos (multiplier self) }
    {
        match self {
            NumberUnit::Seconds => 1,
            NumberUnit::Minutes => 60,
            NumberUnit::Hours => 3_600,
            NumberUnit::Days => 86_400,
            NumberUnit::Weeks => 604_800,
            NumberUnit::Wei => 1,
            NumberUnit::Gwei => 1_000_000_000,
            NumberUnit::Ether => 1_000_000_000_000_000_000,
        }
    }
}

/// An operator between two operands.
#[derive(Clone, Copy, Debug, PartialEq, Eq)]
pub enum BinaryOp {
    /// `**`
    Power,
    /// `*`
    Multiply,
    /// `/`
    Divide,
    /// `%`
    Remainder,
    /// `+`
    Add,
    /// `-`
    Subtract,
    /// `<`
    Less,
    /// `>`
    Greater,
    /// `<=`
    LessEqual,
    /// `>=`
    GreaterEqual,
    /// `==`
    Equal,
    /// `!=`
    NotEqual,
    /// `&&`
    And,
    /// `||`
    Or,
}

impl BinaryOp {
    /// How loosely the operator binds, from 3 (`**`) to 9 (`||`). Those of 3 group to the right, the others to the
    /// left.
    pub fn precedence(self) -> u32
        ensures { result ≡ precedence self }
    {
        match self {
            BinaryOp::Power => 3,
            BinaryOp::Multiply | BinaryOp::Divide | BinaryOp::Remainder => 4,
            BinaryOp::Add | BinaryOp::Subtract => 5,
            BinaryOp::Less | BinaryOp::Greater | BinaryOp::LessEqual | BinaryOp::GreaterEqual => 6,
            BinaryOp::Equal | BinaryOp::NotEqual => 7,
            BinaryOp::And => 8,
            BinaryOp::Or => 9,
        }
    }
}

/// An expression. `at` is the place of its first token, `open_at` that of its `(` or `[`, `operator_at` that of the
/// operator between two operands, and `question_at` that of `?`.
#[derive(Drop)]
pub enum ExprTree {
    /// `NUM [unit]`. A unit after a hexadecimal number is kept.
    Number {
        at: u32,
        value: i128,
        hex: bool,
        unit: Option<NumberUnit>,
    },
    /// `true`
    True {
        at: u32,
    },
    /// `false`
    False {
        at: u32,
    },
    /// `ID`
    Named {
        at: u32,
        name: Name,
    },
    /// `( expr )`
    Parenthesised {
        at: u32,
        inner: Boxed<ExprTree>,
    },
    /// `elem ( expr )`
    Conversion {
        at: u32,
        ty: Ty,
        open_at: u32,
        value: Boxed<ExprTree>,
    },
    /// `type ( type ) . ID`
    TypeMember {
        at: u32,
        ty: Type,
        member: Identifier,
    },
    /// `msg . ID`
    MessageMember {
        at: u32,
        member: Identifier,
    },
    /// `super . ID`
    SuperMember {
        at: u32,
        member: Identifier,
    },
    /// `base [ expr ]`
    Index {
        at: u32,
        base: Boxed<ExprTree>,
        open_at: u32,
        index: Boxed<ExprTree>,
    },
    /// `base . ID`
    Member {
        at: u32,
        base: Boxed<ExprTree>,
        member: Identifier,
    },
    /// `callee ( [args] )`
    Call {
        at: u32,
        callee: Boxed<ExprTree>,
        open_at: u32,
        arguments: Items<ExprTree>,
    },
    /// `! operand`
    Not {
        at: u32,
        operand: Boxed<ExprTree>,
    },
    /// `- operand`
    Negation {
        at: u32,
        operand: Boxed<ExprTree>,
    },
    /// `left operator right`
    Binary {
        at: u32,
        left: Boxed<ExprTree>,
        operator_at: u32,
        operator: BinaryOp,
        right: Boxed<ExprTree>,
    },
    /// `condition ? chosen : otherwise`
    Choice {
        at: u32,
        condition: Boxed<ExprTree>,
        question_at: u32,
        chosen: Boxed<ExprTree>,
        otherwise: Boxed<ExprTree>,
    },
}

impl ExprTree {
    /// The place of its first token.
    pub fn at(&self) -> u32
        ensures { result ≡ place_of self.now }
    {
        match self {
            ExprTree::Number { at, .. } => *at,
            ExprTree::True { at, .. } => *at,
            ExprTree::False { at, .. } => *at,
            ExprTree::Named { at, .. } => *at,
            ExprTree::Parenthesised { at, .. } => *at,
            ExprTree::Conversion { at, .. } => *at,
            ExprTree::TypeMember { at, .. } => *at,
            ExprTree::MessageMember { at, .. } => *at,
            ExprTree::SuperMember { at, .. } => *at,
            ExprTree::Index { at, .. } => *at,
            ExprTree::Member { at, .. } => *at,
            ExprTree::Call { at, .. } => *at,
            ExprTree::Not { at, .. } => *at,
            ExprTree::Negation { at, .. } => *at,
            ExprTree::Binary { at, .. } => *at,
            ExprTree::Choice { at, .. } => *at,
        }
    }
}

/// `( [args] )`, at its `(`.
#[derive(Drop)]
pub struct Arguments {
    pub at: u32,
    pub values: Items<ExprTree>,
}

/// `= expr`, at its `=`.
#[derive(Drop)]
pub struct Initial {
    pub at: u32,
    pub value: ExprTree,
}
