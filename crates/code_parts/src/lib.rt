//! The parts of a function's prototype that are not its code (Lua 5.4's lobject.h, Proto).
#![tactic(auto)]

mod assembling;
mod begin;
mod bodies;
mod captured;
mod constants;
mod lines;
mod registers;
mod variables;

pub use assembling::prototype;
pub use begin::{back_field, byte, last_line, put_opening};
pub use bodies::{inner_bodies, makes_functions};
pub use captured::{up_names, upvalues};
pub use constants::{add_block, block_constants};
pub use lines::{changes, far_lines};
pub use registers::room;
pub use variables::{Variable, Variables};
