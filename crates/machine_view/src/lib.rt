//! The running frame as the machine keeps it: registers, words and constants in memory, and what one instruction does to them
//! in the words of the rows (Lua 5.4's `luaV_execute`). The machine's fast instructions and the loop over them are proved in these words.
#![tactic(auto)]

mod law;

pub use law::{doing_is_step, ready_frames_have_instructions};
