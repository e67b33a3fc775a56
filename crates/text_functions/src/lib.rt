//! The functions of `string` and `table` that make one text of others, over bytes alone (Lua 5.4 manual, 6.4 and 6.6).
//! Each is the function by which `library_rows` says what the library's function gives.
#![tactic(auto)]

mod bytes;
mod fault;
mod growing;
mod joining;
mod places;
mod repeat;

pub use bytes::{byte_of, lowered, reversed, uppered};
pub use fault::{Bounded, StringFault};
pub use growing::{Builder, MAX_TEXT};
pub use joining::join;
pub use places::{end_place, part, start_place};
pub use repeat::repeated;
