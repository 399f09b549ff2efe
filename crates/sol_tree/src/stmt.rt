// Statements as they are written.

use crate::expr::{Arguments, ExprTree, Initial};
use crate::types::{Identifier, Type};
use sqlite_items::{Boxed, Items};

/// An operator that assigns.
#[derive(Clone, Copy, Debug, PartialEq, Eq)]
pub enum AssignOp {
    /// `=`
    Assign,
    /// `+=`
    Add,
    /// `-=`
    Subtract,
    /// `*=`
    Multiply,
    /// `/=`
    Divide,
    /// `%=`
    Remainder,
}

/// An operator that steps by one.
#[derive(Clone, Copy, Debug, PartialEq, Eq)]
pub enum StepOp {
    /// `++`
    Increment,
    /// `--`
    Decrement,
}

/// A text between quotes, at its first quote. Its bytes are not kept.
#[derive(Clone, Copy, Debug, PartialEq, Eq)]
pub struct Text {
    pub at: u32,
}

/// What may stand before a `;` and in the head of a `for`.
#[derive(Drop)]
pub enum Simple {
    /// `type ID [= expr]`
    Declaration {
        at: u32,
        ty: Type,
        name: Identifier,
        initial: Option<Initial>,
    },
    /// `expr aop expr`
    Assignment {
        at: u32,
        target: ExprTree,
        operator_at: u32,
        operator: AssignOp,
        value: ExprTree,
    },
    /// `expr ++`, `expr --`
    StepAfter {
        at: u32,
        target: ExprTree,
        operator_at: u32,
        operator: StepOp,
    },
    /// `++ expr`, `-- expr`
    StepBefore {
        at: u32,
        operator: StepOp,
        target: ExprTree,
    },
    /// `delete expr`
    Delete {
        at: u32,
        target: ExprTree,
    },
    /// `expr`
    Expression {
        at: u32,
        expr: ExprTree,
    },
}

/// A statement.
#[derive(Drop)]
pub enum Stmt {
    /// `{ {stmt} }`
    Block {
        at: u32,
        statements: Items<Stmt>,
    },
    /// `unchecked { {stmt} }`
    Unchecked {
        at: u32,
        statements: Items<Stmt>,
    },
    /// `simple ;`
    Simple {
        at: u32,
        simple: Simple,
    },
    /// `if ( expr ) stmt [else stmt]`
    If {
        at: u32,
        condition: ExprTree,
        chosen: Boxed<Stmt>,
        otherwise: Option<Boxed<Stmt>>,
    },
    /// `while ( expr ) stmt`
    While {
        at: u32,
        condition: ExprTree,
        body: Boxed<Stmt>,
    },
    /// `do stmt while ( expr ) ;`
    DoWhile {
        at: u32,
        body: Boxed<Stmt>,
        condition: ExprTree,
    },
    /// `for ( [simple] ; [expr] ; [simple] ) stmt`
    For {
        at: u32,
        start: Option<Simple>,
        condition: Option<ExprTree>,
        step: Option<Simple>,
        body: Boxed<Stmt>,
    },
    /// `break ;`
    Break {
        at: u32,
    },
    /// `continue ;`
    Continue {
        at: u32,
    },
    /// `return [expr] ;`
    Return {
        at: u32,
        value: Option<ExprTree>,
    },
    /// `_ ;`
    Placeholder {
        at: u32,
    },
    /// `emit ID ( [args] ) ;`
    Emit {
        at: u32,
        event: Identifier,
        arguments: Arguments,
    },
    /// `revert ID ( [args] ) ;`
    RevertWith {
        at: u32,
        error: Identifier,
        arguments: Arguments,
    },
    /// `revert ( [TEXT] ) ;`
    Revert {
        at: u32,
        text: Option<Text>,
    },
    /// `require ( expr [, TEXT] ) ;`
    Require {
        at: u32,
        condition: ExprTree,
        text: Option<Text>,
    },
    /// `assert ( expr ) ;`
    Assert {
        at: u32,
        condition: ExprTree,
    },
}

/// The block of a body, `{ {stmt} }`.
#[derive(Drop)]
pub struct Block {
    pub at: u32,
    pub statements: Items<Stmt>,
}
