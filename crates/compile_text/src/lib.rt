//! From the bytes of a source to its tree, or the reason why the source is refused (Lua 5.4's `lua_load` for texts). Its
//! code comes with the compiler.
#![tactic(auto)]

mod fault;
mod text;

pub use fault::TextFault;
pub use text::source_tree;
