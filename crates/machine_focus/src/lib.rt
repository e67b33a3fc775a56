//! The running frame held apart from its world: what an instruction changes by itself, and what stays. The machine's loop is proved over
//! these laws, in which no world is taken apart (Lua 5.4's `luaV_execute` and its `CallInfo`).
#![tactic(auto)]

mod law;

pub use law::{held_frames_step, held_texts_run, ready_frames_stand};
