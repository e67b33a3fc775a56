//! The machine's rows of open lists and of the objects that instructions make and fill, on a world in memory (lvm.c and lfunc.c of Lua 5.4).
#![tactic(auto)]

mod closures;
mod filling;
mod functions;
mod lists;

pub use closures::new_function;
pub use filling::fill_table;
pub use functions::make_function;
pub use lists::extra_arguments;
