//! The functions of the libraries that are no Lua text, called in the machine in memory with the values on their way (lbaselib.c, lcorolib.c and
//! luaD_precall of ldo.c of Lua 5.4).
#![tactic(auto)]

mod calls;
mod printing;

pub use calls::call_function;
pub use printing::print;
