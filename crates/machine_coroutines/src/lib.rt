//! The machine's moves between coroutines and the rows that make them, on a world in memory, each as the definition of the machine has it
//! (lcorolib.c and ldo.c of Lua 5.4; Lua 5.4 manual, 2.6 and 6.2).
#![tactic(auto)]

mod beginning;
mod burying;
mod closing;
mod endings;
mod ends;
mod finishing;
mod standing;

pub use beginning::{Begun, begin_closing};
pub use closing::{Closing, find_close, set_error, take_closing};
pub use endings::{fail_main, fail_running, first_of, return_from_main, return_running};
pub use ends::{end_coroutine, fail_coroutine, pending_values};
pub use finishing::{close_next, close_on, close_on_error};
pub use standing::{Status, create, runs_main, see_running, see_status, suspend};
