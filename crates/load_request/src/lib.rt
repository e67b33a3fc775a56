//! What `load` is asked for by its arguments, and the texts that it gives in place of a function (luaB_load of lbaselib.c of Lua 5.4).
#![tactic(auto)]

mod requests;
mod texts;

pub use requests::{Request, asked};
pub use texts::{mode_text, refusal_text};
