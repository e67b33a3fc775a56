//! The functions of `coroutine`, as the rows of the machine on a world in memory (lcorolib.c of Lua 5.4; Lua 5.4 manual, 6.2).
#![tactic(auto)]

mod beginning;
mod closing;
mod functions;
mod refusing;
mod resuming;
mod standing;
mod switching;
mod yielding;

pub use functions::{close, create, is_yieldable, resume, running, status};
pub use yielding::yield_running;
