//! Sessions of the machine: the world before a script, turns, and what code does on lines of input. The definitions stand in `specs/`,
//! and the public functions state what is proved of them.
#![tactic(auto)]

mod law;

pub use law::{
    cuts_do_not_show, loads_never_yield, runs_are_one, sessions_are_sound, turns_do_not_trap,
    yields_leave_main_waiting,
};
