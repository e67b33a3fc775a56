//! Operations of instructions on a world in memory, which a handler may be asked for, and what becomes of their values (lvm.c of Lua 5.4).
#![tactic(auto)]

mod computing;
mod concatenating;
mod concatenation;
mod copying;
mod following;
mod joining;
mod operands;
mod operating;
mod whole_texts;

pub use computing::arithmetic;
pub use concatenating::{concatenate, join_on};
pub use following::{advance, follow, keep, take_value};
pub use joining::{Asked, Joined, join};
pub use operands::{Values, operation_on, read_operands};
pub use operating::operate;
