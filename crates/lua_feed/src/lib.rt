//! A script is fed with the lines of an input (`dochunk` and `doREPL` of Lua's lua.c): a turn is done, what was printed and the line that reports the
//! turn's end are written, and at a yield the next line is handed over.
#![tactic(auto)]

mod fault;
mod feeding;
mod script;
mod writing;

pub use fault::FeedFault;
pub use feeding::{Close, feed, feed_on};
pub use script::{run_code, start};
