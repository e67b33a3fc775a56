//! The machine's moves on a world in memory, each as the definition of the machine has it (lvm.c, ldo.c and lcorolib.c of Lua 5.4).
#![tactic(auto)]

mod budget;
mod cells;
mod chain;
mod code;
mod ending;
mod leaving;
mod lists;
mod moving;
mod objects;
mod operations;
mod pending;
mod registers;
mod tops;
mod upvalues;

pub use budget::pay;
pub use cells::{close_cells, open_register};
pub use chain::{running, running_stack, running_stack_mut};
pub use code::{code_on_top, function_on_top, read_constant};
pub use ending::Ending;
pub use leaving::{cut_from, keep_pending, keep_results};
pub use lists::{end_list, read_list, read_varargs, write_list};
pub use moving::{give_values, put_in_front, take_moving};
pub use objects::make_table;
pub use operations::settle;
pub use pending::{drop_pending, mark_pending, see_pending, take_pending};
pub use registers::{clear_registers, go_to, read_register, read_registers, write_register};
pub use tops::{Over, hand_over, handed, pop_frame, push_frame, see_top};
pub use upvalues::{cell_of, read_upvalue, write_upvalue};
