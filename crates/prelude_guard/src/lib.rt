//! Whether the code of the prelude keeps its environment to itself. The definitions stand in `specs/`.
#![tactic(auto)]

mod apart;
mod guard;
mod held;

pub use guard::all_guarded;
