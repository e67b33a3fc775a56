// Blocks, statements and expressions.
use crate::name::{Declared, Name, UpName};
use crate::operator::{BinOp, UnOp};
use int_core::Bytes;

/// Statements in the order of the text, and what stands behind a last `return`
/// (Lua 5.4 manual, 3.3.1).
#[derive(Drop)]
#[cycle(tree)]
pub struct Block {
    /// The statements before the `return`.
    pub stats: Vec<Stat>,
    /// The expressions behind `return`, where there is one.
    pub result: Option<Vec<Exp>>,
    /// How many tokens the block has.
    pub tokens: u32,
    /// The line of the `return`, or where there is none of the token that ends the block.
    pub line: u32,
}

/// What stands behind the word `function` and its name (Lua 5.4 manual, 3.4.11).
#[derive(Drop)]
#[cycle(tree)]
pub struct Body {
    /// The parameters, `self` first where the function is written as a method.
    pub params: Vec<Name>,
    /// Whether `...` stands behind the parameters.
    pub vararg: bool,
    /// What the function does.
    pub block: Block,
    /// The variables of enclosing functions that it or a function within it names.
    pub upvalues: Vec<UpName>,
    /// The line of the word `function`.
    pub line: u32,
}

/// A statement.
#[derive(Drop)]
#[cycle(tree)]
pub struct Stat {
    /// The line of its first token.
    pub line: u32,
    /// What it is.
    pub node: StatNode,
}

/// An expression.
#[derive(Drop)]
#[cycle(tree)]
pub struct Exp {
    /// The line of its operator, of the `.` or `[` of an index, of the token that opens the
    /// arguments of a call, else of its first token.
    pub line: u32,
    /// What it is.
    pub node: ExpNode,
}

/// The statements (Lua 5.4 manual, 3.3).
#[derive(Drop)]
#[cycle(tree)]
pub enum StatNode {
    /// `;`
    Empty,
    /// `local` names and their values.
    Local(Vec<Declared>, Vec<Exp>),
    /// `local function`.
    LocalFunction(Name, Box<Body>),
    /// Targets, each a variable or an index, and values. A `function` with a name is one too.
    Assign(Vec<Exp>, Vec<Exp>),
    /// A call that stands alone.
    Call(Box<Exp>),
    /// `do` block `end`.
    Do(Box<Block>),
    /// `while` test `do` block `end`.
    While(Box<Exp>, Box<Block>),
    /// `repeat` block `until` test.
    Repeat(Box<Block>, Box<Exp>),
    /// `if` and each `elseif` with its block, and the block behind `else`.
    If(Vec<Arm>, Option<Box<Block>>),
    /// `for` with a first value, a limit and perhaps a step.
    NumFor(Name, Box<Exp>, Box<Exp>, Option<Box<Exp>>, Box<Block>),
    /// `for` names `in` values.
    GenFor(Vec<Name>, Vec<Exp>, Box<Block>),
    /// `::` name `::`.
    Label(Name),
    /// `goto` name.
    Goto(Name),
    /// `break`.
    Break,
}

/// A test and the block that is done where it holds.
#[derive(Drop)]
#[cycle(tree)]
pub struct Arm {
    /// What stands behind `if` or `elseif`.
    pub test: Exp,
    /// What stands behind `then`.
    pub block: Block,
}

/// The expressions (Lua 5.4 manual, 3.4).
#[derive(Drop)]
#[cycle(tree)]
pub enum ExpNode {
    /// `nil`
    Nil,
    /// `true`
    True,
    /// `false`
    False,
    /// A numeral.
    Int(i64),
    /// A literal string, or a name behind `.` or before `=` in a table.
    Str(Bytes),
    /// `...`
    Vararg,
    /// `function` and its body.
    Function(Box<Body>),
    /// A variable.
    Var(Name),
    /// A value and the key that it is indexed with.
    Index(Box<Exp>, Box<Exp>),
    /// A value that is called and its arguments.
    Call(Box<Exp>, Vec<Exp>),
    /// A value, the name of its method that is called and the arguments.
    Method(Box<Exp>, Name, Vec<Exp>),
    /// An operator before its operand.
    Unary(UnOp, Box<Exp>),
    /// An operator between its operands.
    Binary(BinOp, Box<Exp>, Box<Exp>),
    /// `and`
    And(Box<Exp>, Box<Exp>),
    /// `or`
    Or(Box<Exp>, Box<Exp>),
    /// An expression in parentheses.
    Paren(Box<Exp>),
    /// A table constructor.
    Table(Vec<Field>),
}

/// A field of a table constructor (Lua 5.4 manual, 3.4.9).
#[derive(Drop)]
#[cycle(tree)]
pub enum Field {
    /// A value at the next place.
    Item(Exp),
    /// A value at a key.
    Keyed {
        /// The line of the `[` or of the name.
        line: u32,
        /// The key.
        key: Exp,
        /// The value.
        value: Exp,
    },
}
