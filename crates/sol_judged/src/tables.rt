// What is declared in the units of a file, in tables by number.

use crate::linked::Members;
use crate::rules::Rule;
use crate::types::ValueType;
use chc_nums::{List, Name};
use sol_core::Expr;

/// What a name means. A number is a place in a table.
#[derive(Clone, Copy, Debug)]
pub enum Meaning {
    /// A local variable, by its number in the program.
    Local(u32, ValueType),
    /// A constant, by its place among the constants.
    Constant(u32),
    /// A state variable of one value, by its number in the program.
    Scalar(u32, ValueType),
    /// A mapping, by its number in the program.
    Mapping(u32),
    /// An array and the type of its elements, by its number in the program.
    Array(u32, ValueType),
    /// A function of the contract or a base, by its place among the functions.
    Function(u32),
    /// A function of an interface, by its place among the functions of interfaces.
    Outer(u32),
    /// A modifier, an event or an error, by its place among those.
    Modifier(u32),
    Event(u32),
    Error(u32),
    /// A contract or an interface, by its place among the units of the file.
    Contract(u32),
    Interface(u32),
    /// What is declared breaks a rule at a place, so that no more can be told of it.
    Faulty(Rule, u32),
}

/// A local name.
#[derive(Drop)]
pub struct Binding {
    pub name: Name,
    pub meaning: Meaning,
}

/// A named member of a contract or an interface, which stands at a place among the units of the file; or such a unit.
#[derive(Clone, Copy)]
pub struct Member<'a> {
    pub name: &'a str,
    pub unit: u32,
    pub is_private: bool,
    pub meaning: Meaning,
}

/// A mapping's one or two key types, and the type of its values.
#[derive(Drop)]
pub struct MapType {
    pub keys: List<ValueType>,
    pub value: ValueType,
}

/// A constant: its type, and the value that each use stands for.
#[derive(Drop)]
pub struct Constant {
    pub ty: ValueType,
    pub value: Expr,
}

/// A function of the contract or a base: its parameters and what it returns, its number in the program where it has a body,
/// and whether it is external, and view or pure.
#[derive(Drop)]
pub struct Function {
    pub params: List<ValueType>,
    pub ret: Option<ValueType>,
    pub number: Option<u32>,
    pub is_external: bool,
    pub is_view: bool,
}

/// A function of an interface: its parameters and what it returns, and whether it is view or pure. Its place is its number
/// in the program.
#[derive(Drop)]
pub struct OuterFunction {
    pub params: List<ValueType>,
    pub ret: Option<ValueType>,
    pub is_view: bool,
}

/// What is declared where an expression stands.
#[derive(Drop)]
pub struct Declared<'a> {
    /// The linearization, the most derived unit first.
    pub lineage: List<u32>,
    /// The linearization of each unit of the file, itself first.
    pub orders: List<List<u32>>,
    /// The units of the file, by their names.
    pub units: Members<'a>,
    /// The members of the linearization, from the most base-like unit on.
    pub members: Members<'a>,
    /// The functions of the interfaces of the file, by their names.
    pub interface_members: Members<'a>,
    pub constants: List<Constant>,
    pub maps: List<MapType>,
    pub functions: List<Function>,
    pub outer_functions: List<OuterFunction>,
    /// The parameters of each modifier, event and error.
    pub modifiers: List<List<ValueType>>,
    pub events: List<List<ValueType>>,
    pub errors: List<List<ValueType>>,
}

/// Where an expression stands: what is declared, the place of the unit among those of the file, the locals in scope, and
/// whether arithmetic is checked.
#[derive(Clone, Copy)]
pub struct Surroundings<'a> {
    pub declared: &'a Declared<'a>,
    pub unit: u32,
    pub locals: &'a [Binding],
    pub is_checked: bool,
}
