//! What the words behind the program's name ask for.
#![tactic(auto)]

mod arguments;
mod command;

pub use command::{Command, read_words};
