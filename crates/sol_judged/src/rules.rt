// The rules that a contract's types, names and statements keep.

ghost use Rattle.std.specs.Prelude.{◌≡◌};
ghost use Rattle.sol_judged.specs.Rules.{number_of};

/// What a contract has to keep. Where one is broken, a fault has its number and a place.
#[derive(Clone, Copy, Debug)]
pub enum Rule {
    /// 1: A name is in scope, and names a thing of the kind that its place needs.
    Naming,
    /// 2: A declared type is allowed where it is declared.
    DeclaredType,
    /// 3: Operands of arithmetic are integers with a common type, the branches of a choice have a common type, and powers
    /// stand in literal expressions alone.
    Operands,
    /// 4: A condition, and an operand of `!`, `&&` or `||`, is `bool`.
    Condition,
    /// 5: Operands of a comparison have a common type, and those of an order are integers.
    Comparison,
    /// 6: A value that is assigned or pushed converts implicitly.
    AssignedValue,
    /// 7: What is assigned to, stepped or deleted is a place.
    AssignedPlace,
    /// 8: Arguments are as many as the parameters, and convert implicitly.
    Arguments,
    /// 9: What is called by name is no external function, and has a body.
    CalledFunction,
    /// 10: A call that may write stands as a statement or as a whole value, and one without a value is used as none.
    CallPlace,
    /// 11: An explicit conversion is allowed, and a literal fits it.
    Conversion,
    /// 12: A literal expression has whole parts below 2^127 in absolute value, no zero divisor, no negative exponent and
    /// no unit after a hexadecimal number.
    LiteralExpression,
    /// 13: A literal has a type of at most 96 bits.
    LiteralType,
    /// 14: A `-` stands before a literal or a value of a signed type.
    Negation,
    /// 15: An index stands after a mapping or an array and converts to the key type, or is unsigned.
    Index,
    /// 16: A member is one that its base has.
    Member,
    /// 17: A `return` has a value exactly where the function returns one, and it converts implicitly.
    Return,
    /// 18: A `break` or `continue` stands in a loop.
    Jump,
    /// 19: A `_` stands in a modifier, and a modifier that is used has a body.
    Placeholder,
    /// 20: A modifier that is used is there, and its arguments are as many as its parameters and convert implicitly.
    ModifierUse,
    /// 21: A base gets its arguments once, of the right number, type and form.
    BaseArguments,
    /// 22: An initialiser reads literals, constants and `msg.sender` alone, a constant has one, and none reads itself in
    /// the end.
    Initialiser,
    /// 23: What stands for a function of a base has its parameter types and return type.
    Override,
    /// 24: Two locals of one scope have two names.
    LocalTwice,
    /// 25: A function of an interface that is called is neither view nor pure.
    ViewCall,
    /// 26: An interface has external functions without bodies, events and errors alone, and a function without a body
    /// stands in an interface or an abstract contract.
    MemberKind,
    /// 27: A function has one visibility and is not both view and pure, and a variable has at most one and is not both
    /// constant and immutable.
    Specifiers,
    /// 28: An expression that is a statement is a call, a push or a pop.
    Statement,
}

impl Rule {
    /// The number by which the rule is told.
    pub fn number(self) -> u32
        ensures { result ≡ number_of self }
    {
        match self {
            Rule::Naming => 1,
            Rule::DeclaredType => 2,
            Rule::Operands => 3,
            Rule::Condition => 4,
            Rule::Comparison => 5,
            Rule::AssignedValue => 6,
            Rule::AssignedPlace => 7,
            Rule::Arguments => 8,
            Rule::CalledFunction => 9,
            Rule::CallPlace => 10,
            Rule::Conversion => 11,
            Rule::LiteralExpression => 12,
            Rule::LiteralType => 13,
            Rule::Negation => 14,
            Rule::Index => 15,
            Rule::Member => 16,
            Rule::Return => 17,
            Rule::Jump => 18,
            Rule::Placeholder => 19,
            Rule::ModifierUse => 20,
            Rule::BaseArguments => 21,
            Rule::Initialiser => 22,
            Rule::Override => 23,
            Rule::LocalTwice => 24,
            Rule::ViewCall => 25,
            Rule::MemberKind => 26,
            Rule::Specifiers => 27,
            Rule::Statement => 28,
        }
    }
}
