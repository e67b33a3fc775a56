//! The Lua frame on top of a world in memory, run as long as it goes on by itself (Lua 5.4's `luaV_execute`): it is held apart from the world
//! while the loop over its instructions runs, and is found once for all of them.
#![tactic(auto)]

mod ahead;
mod asking;
mod closing;
mod crossing;
mod filling;
mod frames;
mod inherited;
mod place;
mod remembering;
mod stack;
mod storing;
mod surroundings;
mod taking;
mod upvalues;

pub use ahead::run_ahead;
pub use place::{Here, find_here};
