//! The machine's inner loop: the instructions of one frame, one after another, as long as the frame goes on by itself
//! (Lua 5.4's `luaV_execute`). Each is one step of the machine's meaning.
#![tactic(auto)]

mod around;
mod decoding;
mod frame;
mod memo;

pub use frame::run_frame;
pub use memo::{Known, Memo, add_known};
