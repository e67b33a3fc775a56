//! The machine's rows of jumps and loops on a world in memory (lvm.c of Lua 5.4; Lua 5.4 manual, 3.3.4 and 3.3.5). A jump back and a further round
//! cost one unit of the budget; where none is left, nothing changes.
#![tactic(auto)]

mod iterating;
mod jumps;
mod numeric;

pub use iterating::loop_over;
pub use jumps::jump;
pub use numeric::{go_round, start_loop};
