//! The code that a function's body is compiled to, as a definition on placed trees. The crate has no code that runs, but for the
//! values that a writer of code shares with the definition. Its proofs
//! have what all laws of code need: code is as long as its size says.
#![tactic(auto)]

mod leaving;

pub use leaving::Leaving;
