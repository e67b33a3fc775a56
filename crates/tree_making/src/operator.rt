// The operators that stand between two operands.
use tree_core::BinOp;

/// An operator between its operands (Lua 5.4 manual, 3.4).
#[derive(Debug, Clone, Copy)]
pub enum Infix {
    /// `or`
    Or,
    /// `and`
    And,
    /// Any other.
    Binary(BinOp),
}
