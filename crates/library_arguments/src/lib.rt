//! What library functions see of their arguments, how they read them, and what they answer (Lua 5.4 manual, 6, and `lauxlib.c`). Each
//! function is the one by which `library_rows` says what the library's functions do with their arguments.
#![tactic(auto)]

mod law;
mod plain;
mod reading;
mod refusal;
mod results;
mod shape;
mod text;

pub use law::{answers_are_done, refusals_are_done};
pub use plain::{Plain, whole_number};
pub use reading::{
    argument, integer_argument, integer_or, is_absent, number_of, text_argument, text_or,
};
pub use refusal::{Fault, Refusal};
pub use results::{Results, fit_lengths};
pub use shape::{Kind, Shape};
pub use text::{Digits, Text, text_of};
