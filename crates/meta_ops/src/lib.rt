//! What operations on values come to, by the handlers of their metatables (Lua 5.4 manual, 2.4; ltm.c and lvm.c of Lua 5.4).
#![tactic(auto)]

mod callee;
mod compare;
mod concatenation;
mod event;
mod fault;
mod handler;
mod heap;
mod index;
pub mod law;
mod lengths;
mod numbers;
mod operation;
mod outcome;
mod store;

pub use callee::{Callee, callee_of};
pub use compare::{equal, less, less_equal};
pub use concatenation::{append_text, concat, is_short};
pub use event::Event;
pub use fault::Fault;
pub use handler::{handler_in, handler_of};
pub use heap::Heap;
pub use index::index_of;
pub use lengths::length;
pub use numbers::{arithmetic, by_zero, computed};
pub use operation::{Operation, operate};
pub use outcome::Outcome;
pub use store::{Stored, store_field, store_of};

/// How many links of handlers are followed.
pub const GREATEST_CHAIN: usize = 2000;
