//! That no script changes the environment of the prelude: whatever code does, the table is as it was made, and no value that the code reaches is that table. The
//! definitions stand in `specs/`, and the public functions state what is proved of them.
#![tactic(auto)]

mod law;

pub use law::{prelude_stays, runs_have_the_prelude};
