//! Sessions of a script, begun: a script's code is given to a new main coroutine, the main coroutine is resumed, a line of input is handed over, and the
//! end of a turn is reported by a line (lauxlib.h, lua.c and ldo.c of Lua 5.4).
#![tactic(auto)]

mod beginning;
mod handing;
mod reporting;
mod resuming;

pub use beginning::begin;
pub use handing::hand_line;
pub use reporting::report;
pub use resuming::resume_main;
