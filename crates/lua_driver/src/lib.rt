//! The driver of the machine: turns of a script, from where its main coroutine is resumed to where it yields, ends or has spent its budget
//! (`lua_resume` of Lua's ldo.c).
#![tactic(auto)]

mod calling;
mod returning;
mod running;
mod tail_calling;
mod turning;
mod words;

pub use running::run;
pub use turning::turn;
