//! What Lua 5.4's virtual machine code means, as definitions: worlds, rows, the step, and one activation's asks.
//! The crate has no code that runs. Its public functions state what is proved of the definitions.
#![tactic(auto)]

mod law;

pub use law::{rows_fit, rows_open};
