//! The machine's rows on a world in memory: one function for each form, which makes the row's moves one after another (lvm.c and ldo.c of Lua 5.4).
#![tactic(auto)]

mod following;
mod loads;
mod objects;
mod operands;
mod truths;

pub use following::{go_on, is_truthy, keep_value, test_value};
pub use loads::{clear, extra_argument, load, load_far, store_upvalue};
pub use objects::new_table;
pub use operands::read_operand;
pub use truths::{negate, test, test_set};
