//! The machine's moves that call and leave functions, on a world in memory, each as the definition of the machine has it (ldo.c of Lua 5.4).
#![tactic(auto)]

mod calling;
mod entering;
mod leaving;
mod preparing;
mod registers;
mod tails;
mod waiting;

pub use calling::{Called, call_value, enter_callee, with_links};
pub use entering::{enter_function, is_full, shape_of};
pub use leaving::{drop_frame, leave_frame};
pub use preparing::{Prepared, make_ready};
pub use registers::call_registers;
pub use tails::call_in_place;
pub use waiting::{ask_over, call_over};
