//! That the machine is the meaning: its worlds and those of talking activations over code, side by side, for any number of coroutines.
//! The crate has no code that runs. Each public function states what is proved of the definitions.
#![tactic(auto)]

mod law;

pub use law::{
    asked_steps_keep_worlds_joined, first_calls_keep_worlds_joined, frames_keep_worlds_joined,
    handing_steps_keep_worlds_joined, switches_keep_worlds_joined, writes_keep_worlds_joined,
};
