//! A session is never refused where it is loaded from what it was saved as, and has the libraries as they were made. The definitions stand in `specs/`, and the public functions state what is proved of
//! them.
#![tactic(auto)]

mod law;

pub use law::{preludes_are_known, saved_sessions_load, sessions_keep_the_prelude};
