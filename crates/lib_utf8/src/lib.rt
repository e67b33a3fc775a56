//! The functions of `utf8` (Lua 5.4 manual, 6.5, and `lutf8lib.c`). Each takes the shapes of all arguments and answers what its row in
//! `library_rows` says: its results, or its error.
#![tactic(auto)]

mod characters;
mod codepoints;
mod counting;
mod offsets;
mod places;
mod walking;

pub use characters::char;
pub use codepoints::codepoint;
pub use counting::len;
pub use offsets::offset;
pub use walking::{WALK, WALK_LAX, codes, walk_on};
