//! From the bytes of a source file to its code and the bytes of its chunk, or the reason why the source is refused (Lua 5.4's `luac`).
#![tactic(auto)]

mod chunk;
mod code;
mod script;

pub use chunk::chunk_of;
pub use code::code_of;
pub use script::script_in;
