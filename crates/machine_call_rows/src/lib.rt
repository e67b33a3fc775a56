//! The machine's rows of calls on a world in memory (CALL, TFORCALL and TAILCALL of lvm.c of Lua 5.4). A call costs one unit of the budget; where none is left, nothing changes.
#![tactic(auto)]

mod calls;
mod few;
pub mod law;
mod primitives;
mod tails;

pub use calls::{CallAt, call, tail_call};
pub use few::Few;
pub use primitives::{PrimitiveCall, arguments_of_call, call_primitive, wait_for_primitive};
pub use tails::tail_call_primitive;
