//! What a script means: the world in which its activations talk, and its runs.
//! The crate has no code that runs. Its public functions state what is proved of the definitions.
#![tactic(auto)]

mod law;

pub use law::{cuts_do_not_show, ended_stays, keeps_limits, meaning_is_one};
