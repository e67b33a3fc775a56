//! The compiler: from a source's tree to its code (Lua 5.4's lparser.c and lcode.c).
#![tactic(auto)]

mod compiling;
mod functions;

pub use compiling::compile;
