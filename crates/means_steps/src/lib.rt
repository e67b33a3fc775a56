//! Steps of the machine: what it does in one step, the world of talking activations over code does in some ticks, for any number of
//! coroutines. The crate has no code that runs. Each public function states what is proved of the definitions.
#![tactic(auto)]

mod law;

pub use law::{
    code_steps_keep_worlds_joined, primitives_keep_worlds_joined, steps_keep_worlds_joined,
};
