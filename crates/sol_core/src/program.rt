// The elaborated contract: functions over numbered variables, and the targets that stand in them.

use chc_nums::{List, Name, Op, Ty};
use sqlite_items::{Boxed, Items};

/// What a verification target asks. The order is that of the kind numbers, from 0.
#[derive(Clone, Copy, Debug, PartialEq, Eq)]
pub enum Kind {
    Assert,
    Underflow,
    Overflow,
    DivByZero,
    OutOfBounds,
    PopEmptyArray,
}

/// A verification target: its kind, and its place in the source. Lines and columns count from 1, columns in bytes.
#[derive(Clone, Copy, Debug, PartialEq, Eq)]
pub struct Site {
    pub kind: Kind,
    pub line: u32,
    pub col: u32,
}

/// The targets of an arithmetic operation, as places in `sites`: where the result lies below or above its type, and
/// where the divisor is 0.
#[derive(Clone, Copy, Debug, PartialEq, Eq)]
pub struct PanicSites {
    pub under: Option<u32>,
    pub over: Option<u32>,
    pub zero: Option<u32>,
}

/// A mapping's one or two key types, and the type of its values.
#[derive(Drop)]
pub struct MapTy {
    pub keys: List<Ty>,
    pub val: Ty,
}

/// A function of an interface, which an external call may reach.
#[derive(Drop)]
pub struct OutFun {
    pub name: Name,
    pub params: List<Ty>,
    pub ret: Option<Ty>,
    pub view: bool,
}

/// A comparison.
#[derive(Clone, Copy, Debug, PartialEq, Eq)]
pub enum Cmp {
    Lt,
    Le,
    Gt,
    Ge,
    Eq,
    Ne,
}

/// An expression. Variables go by their places among the locals or the scalars, mappings and arrays of the program;
/// a number has a type. The flag of `Arith` says checked, `Cast` has the operand's type and then the result's, and
/// the last number of `ElemAt` is a place in `sites`.
#[derive(Drop)]
pub enum Expr {
    Num(i128, Ty),
    Local(u32),
    Scalar(u32),
    MapAt(u32, Items<Expr>),
    ElemAt(u32, Boxed<Expr>, u32),
    Len(u32),
    Sender,
    Arith(Op, Ty, bool, Boxed<Expr>, Boxed<Expr>, PanicSites),
    Compare(Cmp, Boxed<Expr>, Boxed<Expr>),
    Not(Boxed<Expr>),
    Both(Boxed<Expr>, Boxed<Expr>),
    Either(Boxed<Expr>, Boxed<Expr>),
    Pick(Boxed<Expr>, Boxed<Expr>, Boxed<Expr>),
    Cast(Ty, Ty, Boxed<Expr>),
    Call(u32, Items<Expr>),
}

/// What an assignment writes. The last number of `Elem` is a place in `sites`.
#[derive(Drop)]
pub enum Place {
    Local(u32),
    Scalar(u32),
    Map(u32, Items<Expr>),
    Elem(u32, Expr, u32),
}

/// A statement. The third field of `While` is the step of a `for`; `Leave` ends the innermost `Scope` or the body;
/// the last numbers of `Pop` and `Assert` are places in `sites`.
#[derive(Drop)]
pub enum Stmt {
    Set(Place, Expr),
    Step(Place, Op, Ty, bool, Expr, PanicSites),
    Push(u32, Expr),
    Pop(u32, u32),
    Clear(u32),
    Call(Option<Place>, u32, Items<Expr>),
    Out(Option<Place>, u32, Expr, Items<Expr>),
    If(Expr, Items<Stmt>, Items<Stmt>),
    While(Expr, Items<Stmt>, Items<Stmt>),
    DoWhile(Items<Stmt>, Expr),
    Break,
    Continue,
    Leave,
    Scope(Items<Stmt>),
    Require(Expr),
    Assert(Expr, u32),
    Revert(Items<Expr>),
    Emit(Items<Expr>),
}

/// A function: the number of its parameters, the types of its locals (the parameters, then the return variable, then
/// the others), the local that it returns, and its body.
#[derive(Drop)]
pub struct Fun {
    pub name: Name,
    pub params: u32,
    pub locals: List<Ty>,
    pub ret: Option<u32>,
    pub view: bool,
    pub body: List<Stmt>,
}

/// An argument of a constructor: a number, or a parameter of the checked contract's constructor.
#[derive(Clone, Copy, Debug, PartialEq, Eq)]
pub enum BuildArg {
    Num(i128),
    Param(u32),
}

/// What one contract of the linearization does at deployment: its initialisers, and then its constructor.
#[derive(Drop)]
pub struct Build {
    pub inits: List<Stmt>,
    pub fun: Option<u32>,
    pub args: List<BuildArg>,
}

/// An elaborated contract. `doors` are the functions that an outsider may call, as places in `funs`; `sites` are the
/// targets, by line, column and kind number.
#[derive(Drop)]
pub struct Program {
    pub name: Name,
    pub scalars: List<Ty>,
    pub maps: List<MapTy>,
    pub arrays: List<Ty>,
    pub funs: List<Fun>,
    pub outs: List<OutFun>,
    pub params: List<Ty>,
    pub builds: List<Build>,
    pub doors: List<u32>,
    pub sites: List<Site>,
}
