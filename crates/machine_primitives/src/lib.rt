//! The choice among the functions of the libraries that are no Lua text, by their numbers (luaD_precall of ldo.c of Lua 5.4).
#![tactic(auto)]

mod primitives;

pub use primitives::{library_function, primitive};
