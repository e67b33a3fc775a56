//! Turns of code end: each step of the machine takes a unit of the budget or makes a measure of its world smaller.
#![tactic(auto)]

mod law;

pub use law::{every_code_runs, primitives_fall, steps_fall, turns_of_code_end};
