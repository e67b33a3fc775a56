//! What is known of a world in memory where a move of the machine is made: which stack runs, and what becomes of the world where a frame on top of
//! that stack is changed.
#![tactic(auto)]

pub mod law;
