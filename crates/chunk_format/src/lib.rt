//! Lua 5.4's binary chunks: the bytes of a function's prototype, written and read (`ldump.c` and `lundump.c`).
#![tactic(auto)]

mod chunk;
mod dump;
mod fault;
mod function;
mod input;
mod item;
mod law;
mod output;

pub use chunk::{read_chunk, read_function, write_chunk, write_function};
pub use fault::ChunkFault;
pub use law::no_chunk_goes_on;
