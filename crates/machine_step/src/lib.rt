//! A step of the machine on a world in memory: a script is one step after another (luaV_execute of lvm.c, luaD_throw and luaD_poscall of ldo.c of Lua 5.4).
#![tactic(auto)]

mod going_on;
mod instructions;
mod stepping;

pub use going_on::go_on_with;
pub use stepping::{step, step_from};
