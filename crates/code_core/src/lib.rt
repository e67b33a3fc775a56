//! Lua 5.4's virtual machine code as data: instruction words and the functions that they make up.
#![tactic(auto)]

mod checked;
mod instruction;
mod line;
mod opcode;
mod proto;

pub use checked::Checked;
pub use instruction::{Instruction, fetch};
pub use line::given_line;
pub use opcode::{OPCODES, Opcode};
pub use proto::{AbsLine, Const, LocVar, Proto, UpDesc};
