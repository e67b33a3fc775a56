//! Calls of library functions by a Lua frame, done at once: the call, the function, and what the frame does with the results (luaD_precall and
//! luaD_poscall of ldo.c of Lua 5.4), also in place of that frame. The arguments stand in an array, and no value moves through a list.
#![tactic(auto)]

mod answering;
mod calls;
mod glancing;
mod primitives;
mod tails;

pub use calls::call_library;
pub use tails::tail_call_library;
