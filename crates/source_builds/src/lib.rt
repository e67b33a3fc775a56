//! What sources are built to while a script runs (lua_load of lapi.c of Lua 5.4): trees, and the code of these. The crate has no code that runs: its
//! public function states what is proved.
#![tactic(auto)]

mod law;

pub use law::readings_are_one;
