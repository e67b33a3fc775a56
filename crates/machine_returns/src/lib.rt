//! The machine's rows of functions that return or fail, of variables that are closed, and of results that come to a frame that waits, on a world in memory
//! (lvm.c, ldo.c and lfunc.c of Lua 5.4).
#![tactic(auto)]

mod closables;
mod closing;
mod failing;
mod going_on;
mod leaving;
mod marking;
mod names;
mod results;
mod returning;
mod waking;

pub use closables::{find_close, is_closable};
pub use closing::{close_variables, go_on_closing};
pub use failing::{fail_with, unwind_function};
pub use going_on::go_on_called;
pub use marking::mark;
pub use results::{take_results, write_registers};
pub use returning::{go_on_returning, return_some, return_values};
pub use waking::{doze, set_wait, wait_on_top, wake};
