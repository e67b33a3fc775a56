//! From the source to the machine: a script's code prints and ends by the machine as the script's tree means it by the letter of the manual.
//! The crate has no code that runs. Its public functions state what is proved of the definitions.
#![tactic(auto)]

mod law;

pub use law::{prelude_is_alike, scripts_do_as_they_mean, sources_are_never_broken};
