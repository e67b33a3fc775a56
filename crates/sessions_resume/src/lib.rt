//! A session that was saved and loaded goes on as it would have: in worlds that agree code does the same, on any lines.
#![tactic(auto)]

mod law;

pub use law::{runs_go_alike, saved_sessions_go_on};
