//! The prelude: the functions of the libraries that are Lua text, and the keys under which all functions are saved (Lua 5.4
//! manual, 6).
#![tactic(auto)]

mod keys;
mod source;

pub use keys::{functions, names};
pub use source::text;
