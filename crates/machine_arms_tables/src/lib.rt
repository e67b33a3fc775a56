//! The machine's fast instructions on tables, new ones too, upvalues and lengths beside those on registers alone (lvm.c of Lua 5.4; Lua 5.4 manual, 2.4 and
//! 3.4.7): fields that no function decides, and closed cells. Each does what its row says, or answers that it takes more, with all as before.
#![tactic(auto)]

mod closure;
mod comparing;
mod fields;
mod inherited;
mod instruction;
mod lengths;
mod making;
mod names;
mod reads;
mod site;
mod unhandled;
mod upvalues;
mod writes;

pub use closure::{Closure, set_register};
pub use instruction::{run_instruction, settle_beyond, store_beyond};
