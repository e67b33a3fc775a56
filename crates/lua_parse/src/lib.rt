//! The parser: from the tokens of a source to its tree, or the place where they are refused (Lua 5.4 manual, 3.3, 3.4 and 9).
#![tactic(auto)]

mod assignment;
mod block;
mod branch;
mod chunk;
mod expression;
mod fault;
mod function;
mod repetition;
mod room;
mod statement;
mod suffix;
mod table;
mod terminal;

pub use chunk::parse;
pub use fault::ParseFault;
