//! From the source to sessions: a script that is cut into sessions, each loaded from the image that the one before left, prints and ends as the script means it
//! by the letter of the manual. The crate has no code that runs. Its public functions state what is proved of the definitions.
#![tactic(auto)]

mod law;

pub use law::sessions_do_as_they_mean;
