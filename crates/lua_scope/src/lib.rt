//! The static rules of a source, met by a walk over its tree with the places set
//! (Lua 5.4 manual, 3.3.4, 3.3.7, 3.3.8 and 3.5).
#![tactic(auto)]

mod checks;
mod index;
mod labels;
mod resolving;
mod walk;

pub use resolving::resolve;
