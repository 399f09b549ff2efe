// Files, contracts and their members as they are written.

use crate::expr::{Arguments, Initial};
use crate::stmt::Block;
use crate::types::{Identifier, Type};
use chc_nums::List;

/// A file. `at` is 0 where it has no tokens.
#[derive(Drop)]
pub struct File {
    pub at: u32,
    pub units: List<Unit>,
}

/// What a file is made of. No bases stand where there is no `is`.
#[derive(Drop)]
pub enum Unit {
    /// `[abstract] contract ID [bases] { {member} }`
    Contract {
        at: u32,
        is_abstract: bool,
        name: Identifier,
        bases: List<Base>,
        members: List<Member>,
    },
    /// `interface ID [bases] { {member} }`
    Interface {
        at: u32,
        name: Identifier,
        bases: List<Base>,
        members: List<Member>,
    },
    /// An event of the file.
    Event {
        at: u32,
        event: Event,
    },
    /// An error of the file.
    Error {
        at: u32,
        error: Error,
    },
}

/// `ID [( [args] )]`. Empty parentheses are kept.
#[derive(Drop)]
pub struct Base {
    pub at: u32,
    pub name: Identifier,
    pub arguments: Option<Arguments>,
}

/// A member of a contract or an interface.
#[derive(Drop)]
pub enum Member {
    Var { at: u32, var: Var },
    Fun { at: u32, fun: Fun },
    Constructor { at: u32, constructor: Constructor },
    Modifier { at: u32, modifier: Modifier },
    Event { at: u32, event: Event },
    Error { at: u32, error: Error },
}

/// `override [( ID {, ID} )]`. No names stand where there are no parentheses.
#[derive(Drop)]
pub struct Override {
    pub at: u32,
    pub names: List<Identifier>,
}

/// A specifier of a variable.
#[derive(Drop)]
pub enum VarSpecifier {
    Public { at: u32 },
    Internal { at: u32 },
    Private { at: u32 },
    Constant { at: u32 },
    Immutable { at: u32 },
    Override { at: u32, specifier: Override },
}

/// `type {varspecifier} ID [= expr] ;`
#[derive(Drop)]
pub struct Var {
    pub at: u32,
    pub ty: Type,
    pub specifiers: List<VarSpecifier>,
    pub name: Identifier,
    pub initial: Option<Initial>,
}

/// `type [ID]`: a parameter, or what a function returns.
#[derive(Drop)]
pub struct Param {
    pub at: u32,
    pub ty: Type,
    pub name: Option<Identifier>,
}

/// A specifier of a function. A base is a modifier's use.
#[derive(Drop)]
pub enum FunSpecifier {
    Public { at: u32 },
    External { at: u32 },
    Internal { at: u32 },
    Private { at: u32 },
    View { at: u32 },
    Pure { at: u32 },
    Virtual { at: u32 },
    Override { at: u32, specifier: Override },
    Base { at: u32, base: Base },
}

/// `function ID ( [params] ) {funspecifier} [returns ( type [ID] )] (; | block)`. No body stands where there is a `;`.
#[derive(Drop)]
pub struct Fun {
    pub at: u32,
    pub name: Identifier,
    pub params: List<Param>,
    pub specifiers: List<FunSpecifier>,
    pub returns: Option<Param>,
    pub body: Option<Block>,
}

/// A specifier of a constructor. A base is a modifier's use or a base's arguments.
#[derive(Drop)]
pub enum ConstructorSpecifier {
    Public { at: u32 },
    Internal { at: u32 },
    Base { at: u32, base: Base },
}

/// `constructor ( [params] ) {specifier} block`
#[derive(Drop)]
pub struct Constructor {
    pub at: u32,
    pub params: List<Param>,
    pub specifiers: List<ConstructorSpecifier>,
    pub body: Block,
}

/// A specifier of a modifier.
#[derive(Drop)]
pub enum ModifierSpecifier {
    Virtual { at: u32 },
    Override { at: u32, specifier: Override },
}

/// `modifier ID [( [params] )] {specifier} (block | ;)`. Empty parentheses are not kept, and no body stands where there is
/// a `;`.
#[derive(Drop)]
pub struct Modifier {
    pub at: u32,
    pub name: Identifier,
    pub params: List<Param>,
    pub specifiers: List<ModifierSpecifier>,
    pub body: Option<Block>,
}

/// `type [indexed] [ID]`
#[derive(Drop)]
pub struct EventParam {
    pub at: u32,
    pub ty: Type,
    pub indexed: bool,
    pub name: Option<Identifier>,
}

/// `event ID ( [evp {, evp}] ) [anonymous] ;`
#[derive(Drop)]
pub struct Event {
    pub at: u32,
    pub name: Identifier,
    pub params: List<EventParam>,
    pub anonymous: bool,
}

/// `error ID ( [type [ID] {, type [ID]}] ) ;`
#[derive(Drop)]
pub struct Error {
    pub at: u32,
    pub name: Identifier,
    pub params: List<Param>,
}
