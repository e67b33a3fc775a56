//! The law of resolved trees: their names, labels and jumps are in scope, and their limits are kept.
//! The crate has no code that runs. Its public function states the law.
#![tactic(auto)]

mod law;

pub use law::resolved_names_fit;
