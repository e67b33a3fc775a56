//! Runs of a script in the two forms of cells print the same and end alike.
//! The crate has no code that runs. Its public functions state what is proved of the definitions.
#![tactic(auto)]

mod law;

pub use law::{code_keeps_the_letter, openings_are_ready, runs_do_not_show_cells};
