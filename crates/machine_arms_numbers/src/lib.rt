//! The machine's fast instructions on the running frame's registers alone: loads, arithmetic, comparisons, tests, jumps and numerical loops
//! (lvm.c of Lua 5.4; Lua 5.4 manual, 3.3 and 3.4). Each does what its row says, or answers that it cannot go on within the frame, with all as before.
#![tactic(auto)]

mod arithmetic;
mod comparisons;
mod instruction;
mod jumps;
mod loads;
mod registers;
mod site;
mod truths;

pub use instruction::run_instruction;
pub use jumps::{distance_of, further_rounds, has_round, leads_back};
pub use registers::{branch, integer, value_numbered};
