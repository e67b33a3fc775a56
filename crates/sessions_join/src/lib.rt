//! Sessions one after another, each loaded from the image that the one before left: they do what one run does on all their lines. The definitions stand in
//! `specs/`, and the public functions state what is proved of them.
#![tactic(auto)]

mod law;

pub use law::sessions_are_one_run;
