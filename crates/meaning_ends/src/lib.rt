//! Every turn ends, so every script has a meaning: an activation asks at last, and pays a unit of fuel at last.
//! The crate has no code that runs. Its public functions state what is proved.
#![tactic(auto)]

mod law;

pub use law::{asks_at_last, every_script_has_a_meaning, falls_between_units, turns_end};
