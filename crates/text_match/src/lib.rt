//! `string.find`, `match`, and what `gmatch` and `gsub` rest on (Lua 5.4 manual, 6.4). Each function is the one by which
//! `library_rows` says what the library's function gives.
#![tactic(auto)]

mod hits;
mod plain;
mod searching;

pub use hits::{Hit, first_hit};
pub use plain::find_plain;
pub use searching::{next_hit, read_items, search};
