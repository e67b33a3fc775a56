//! That tables are tables in sessions that are loaded, from whatever bytes: so of what a session is saved as nothing has to be asked about its tables. The
//! definitions stand in `specs/`, and the public functions state what is proved of them.
#![tactic(auto)]

mod law;

pub use law::{loaded_sessions_have_tables, sessions_are_saved};
