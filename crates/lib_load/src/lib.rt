//! `load`: sources that are compiled while a script runs (luaB_load of lbaselib.c and lua_load of lapi.c of Lua 5.4).
#![tactic(auto)]

mod loading;
mod reading;

pub use loading::load;
