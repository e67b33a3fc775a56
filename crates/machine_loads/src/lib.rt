//! Functions that the machine in memory makes of code that is loaded while it runs (lua_load of lapi.c of Lua 5.4).
#![tactic(auto)]

mod giving;
mod making;

pub use giving::{give_function, give_reason};
pub use making::make_function;
