// What an instruction's operation is, and where it finds its operands.

/// Where a value is found.
#[derive(Debug, Clone, Copy, PartialEq, Eq)]
pub enum Operand {
    Register(usize),
    Constant(usize),
    Upvalue(usize),
    /// An integer in the instruction's word.
    Integer(i64),
    /// A truth that the opcode says.
    Truth(bool),
}

/// An operator on integers (Lua 5.4 manual, 3.4.1 and 3.4.2).
#[derive(Debug, Clone, Copy, PartialEq, Eq)]
pub enum Operator {
    Add,
    Sub,
    Mul,
    Mod,
    IDiv,
    BAnd,
    BOr,
    BXor,
    Shl,
    Shr,
    Unm,
    BNot,
}

/// An operation that may ask for a handler (Lua 5.4 manual, 2.4).
#[derive(Debug, Clone, Copy, PartialEq, Eq)]
pub enum Operation {
    Index,
    Store,
    Arithmetic(Operator),
    Length,
    Equal,
    Less,
    LessEqual,
}

/// The operands of an operation, in the order in which they are read.
#[derive(Debug, Clone, Copy, PartialEq, Eq)]
pub enum Operands {
    One(Operand),
    /// One value as both operands, as the operators with one operand ask for a handler.
    Twice(Operand),
    Two {
        first: Operand,
        second: Operand,
        /// Whether the second one is the left operand.
        swapped: bool,
    },
    Three(Operand, Operand, Operand),
}
