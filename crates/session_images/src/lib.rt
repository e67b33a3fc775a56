//! Images of whole sessions: which permanents they have, and that a session can be loaded from its image into a new world of the libraries. The definitions
//! stand in `specs/`, and the public functions state what is proved of them.
#![tactic(auto)]

mod law;

pub use law::{sessions_can_resume, worlds_have_the_prelude};
