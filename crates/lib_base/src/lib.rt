//! The library functions that look at tables and metatables, over the world in memory (lbaselib.c and ltablib.c of Lua 5.4), and the choice among
//! all functions that look at values and tables alone. Each gives what its row of `library_rows` says.
#![tactic(auto)]

mod base;
mod calls;
mod expanding;
mod glances;
mod joining;
pub mod law;
mod lists;
mod metatables;
mod numbering;
mod packing;
pub mod raw;
mod seeking;
mod sorting;
mod text;

pub use calls::{Function, call};
pub use glances::glance;
