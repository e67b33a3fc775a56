//! A step of the machine on a world in memory, in the words of its rows: each law is the contract of a function that does nothing.
#![tactic(auto)]

pub mod law;
