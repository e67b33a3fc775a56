//! Patterns of Lua: a pattern is read into items, and the items are matched by going back over single tries.
#![tactic(auto)]

// What a pattern spells.
mod class;
mod item;
// How it is read.
mod cursor;
mod reading;
pub mod rule;
mod scope;
mod set;
// How it is matched.
mod begins;
mod matching;
mod plain;
// What is answered.
mod answer;
mod find;

pub use answer::{Capture, Match, PatternFault};
pub use find::{Pattern, find_at};
