//! That tables stay tables: whatever code does, no key of a table stands twice, and nil is none. The definitions stand in `specs/`, and the public functions state
//! what is proved of them.
#![tactic(auto)]

mod law;

pub use law::tables_stay;
