//! What moves and the frame on top that it reaches: results that are handed to it, errors that are raised, and errors that it is left with (luaD_throw,
//! luaD_poscall and auxresume of Lua 5.4).
#![tactic(auto)]

mod catching;
mod handing;
mod unwinding;

pub use catching::catch_error;
pub use handing::hand_results;
pub use unwinding::unwind_top;
