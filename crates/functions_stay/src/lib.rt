//! That functions which were made stay as they are: whatever code does, no function changes, and new ones come last. The definitions stand in `specs/`, and the
//! public functions state what is proved of them.
#![tactic(auto)]

mod law;

pub use law::functions_stay;
