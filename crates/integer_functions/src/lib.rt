//! The functions of `math` on integers, and integers from digits in a base (Lua 5.4 manual, 6.7 and 6.1, `tonumber`).
//! Each is the function by which `library_rows` says what the library's function gives.
#![tactic(auto)]

mod digits;
mod integers;

pub use digits::read_in_base;
pub use integers::{absolute, greater, is_below, lesser, remainder};
