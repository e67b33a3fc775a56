//! That `load` is safe where sources are built to the code of their trees. The crate has no code that runs: its public function states what is proved.
#![tactic(auto)]

mod law;

pub use law::loading_is_safe;
