//! The check of code before it runs: it finds the first rule that is broken, or keeps the code as checked.
#![tactic(auto)]

mod checked;
mod constants;
mod description;
mod fault;
mod opcodes;
mod places;
mod registers;
mod rules;
mod walk;
mod writable;

pub use checked::check;
pub use fault::CheckFault;
