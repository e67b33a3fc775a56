//! Runs of code that means a tree print the same and end alike as the tree's.
//! The crate has no code that runs. Its public functions state what is proved of the definitions.
#![tactic(auto)]

mod law;

pub use law::{openings_are_alike, whole_runs_end_alike};
