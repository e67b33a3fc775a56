//! The program over its devices: what its arguments ask for, and what it answers (`lua.c` and `luac.c` of Lua's sources).
#![tactic(auto)]

mod call;
mod checking;
mod compiling;
mod fault;
mod no_input;
mod refusing;
mod reporting;
mod resuming;
mod running;
mod saving;
mod session;
mod working;

pub use call::luaris;
pub use fault::Fault;
pub use reporting::report;
pub use session::{Session, SessionState};
