//! The forms that instructions share: what an instruction does, by the operands that its word names, so that one function can do all
//! instructions of a form (lopcodes.h and lvm.c of Lua 5.4).
#![tactic(auto)]

mod choice;
mod form;
pub mod law;
mod operand;

pub use choice::form_of;
pub use form::{After, Form};
pub use operand::{Operand, Operands, Operation, Operator};
