//! Runs of the machine: a script's code prints and ends by the machine as it does in the world that answers the asks of its activations, over
//! any number of turns. The crate has no code that runs. Its public functions state what is proved of the definitions.
#![tactic(auto)]

mod law;

pub use law::{opening_worlds_are_alike, scripts_run_as_they_mean};
