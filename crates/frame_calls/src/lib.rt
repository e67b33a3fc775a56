//! Calls of Lua functions by the Lua frame on top of a stack, and returns from them, as far as they change nothing but that stack (Lua 5.4's `luaD_precall` and
//! `luaD_poscall`): functions are called over the frame and in its place, with arguments in registers or in an open list, as iterators of loops too; what they return
//! goes to the frame below, where it is a Lua frame that wants at most two values or opens a list of them; extra arguments go to registers. None of it looks at a
//! table or a cell.
#![tactic(auto)]

mod calling;
mod closing;
mod crossing;
mod iterating;
mod listing;
mod opening;
mod returning;
mod spreading;
mod stop;
mod tail_calling;

pub use calling::{may_give_up, register_of, shape_of};
pub use closing::closed_from;
pub use crossing::{cross, cross_over_at};
pub use listing::behind;
pub use opening::list_taker_of;
pub use returning::{Given, Taker, first_two, hand, second_of, taker_of};
pub use stop::{Functions, Stop};
