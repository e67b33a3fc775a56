//! The law of whole runs of compiled sources: they print and end as their trees do.
//! The crate has no code that runs. Its public functions state the laws.
#![tactic(auto)]

mod law;

pub use law::{compiled_preludes_are_alike, compiled_sources_run_alike};
