//! Worlds of the machine that are the same up to the numbers of their objects run alike.
//! The crate has no code that runs. Its public functions state what is proved.
#![tactic(auto)]

mod law;

pub use law::{agreement_composes, turns_begin_and_end, worlds_run_alike};
