//! Whatever checked code means a source's tree does, by the machine, what the source means by the letter of the manual.
//! The crate has no code that runs. Its public functions state what is proved of the definitions.
#![tactic(auto)]

mod law;

pub use law::{code_of_sources_is_a_main, mains_do_as_they_mean};
