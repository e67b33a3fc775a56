//! The constants of a function (Lua 5.4 manual, 3.4), each once, in the order in which its code first names them, with their numbers; and which of them, and which numerals, may stand in an instruction.
#![tactic(auto)]

mod collecting;
mod constant_operands;
mod constants;
mod numerals;

pub use constants::{Constants, is_small};
pub use numerals::{numeral_of, operand_numeral, short};
