//! The stack of a coroutine (Lua 5.4's ldo.c): its frames, their registers in one list, and its open cells.
#![tactic(auto)]

mod calls;
mod cells;
mod closing;
mod frame;
mod frames;
mod leaving;
mod pending;
mod registers;
mod stack;
mod values;
mod views;

pub use frame::{GREATEST_DEPTH, LuaState, OpenCell, Shape, Top, Wait};
pub use stack::Stack;
pub use views::{FrameView, LuaView};
