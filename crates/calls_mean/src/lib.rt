//! From the source to calls of the program: a script that is run, saved, and gone on with by one call after another writes and ends as the script means it by
//! the letter of the manual; what a call saved is never refused, and it stands for the script where it waits, as the image of each script that waits for
//! a line does. The crate has no code that runs. Its public functions state what is proved of the definitions.
#![tactic(auto)]

mod law;

pub use law::{calls_do_as_they_mean, saved_calls_resume, saved_calls_stand, saved_images_stand};
