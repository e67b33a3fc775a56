//! Errors in the machine in memory: how they are raised, who catches them, and with what frames are left (luaG_errormsg, luaD_throw and luaD_pcall of
//! ldebug.c and ldo.c of Lua 5.4).
#![tactic(auto)]

mod asking;
mod catching;
mod handlers;
mod protected;
mod protecting;
mod raising;
mod throwing;

pub use catching::{call_catcher, see_catcher};
pub use handlers::{answer_handler, call_handler, fail_handler, give_up};
pub use protected::{answer_error, answer_results};
pub use protecting::{pcall, xpcall};
pub use raising::{begin_leaving_with, blame, blamed_text, raise};
pub use throwing::error;
