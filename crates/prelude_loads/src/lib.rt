//! That the environment of the prelude stays out of reach in a session that was saved and is loaded again. The definition stands in `specs/`, and the public
//! function states what is proved of it.
#![tactic(auto)]

mod law;

pub use law::loaded_sessions_stay;
