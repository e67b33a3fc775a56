//! What it is that code means a tree, as a definition, with examples of both.
//! The crate has no code that runs. Its public function states what is proved of the definition.
#![tactic(auto)]

mod law;

pub use law::asks_the_same;
