//! The values that every layer shares: the arithmetic of integers and their texts, byte strings and lists of numbers.
#![tactic(auto)]

mod arithmetic;
mod list;
mod memory;
mod numeral;

pub use arithmetic::{add, floor_div, floor_mod, mul, neg, shl, shr, sub};
pub use list::{Bytes, Numbers};
pub use memory::Allocated;
pub use numeral::{digits_of, read_integer, space_len, with_sign, write_integer};
