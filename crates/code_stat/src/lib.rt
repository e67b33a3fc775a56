//! The code of statements (Lua 5.4 manual, 3.3), written into the code of the function that they stand in.
#![tactic(auto)]

mod forms;
mod jumps;
mod labels;
mod marks;
mod pair;
mod ranges;
mod returns;
mod scope;
mod simple;
mod statements;
mod stores;
mod targets;
mod whole;
mod writer;

pub use marks::{write_close, write_marks};
pub use ranges::{write_bounds, write_steps};
pub use returns::write_return;
pub use simple::{write_assign, write_call, write_local_function};
pub use whole::{Written, write_body};
