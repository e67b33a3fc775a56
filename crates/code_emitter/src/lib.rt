//! The code of a function while it is written: instructions with their lines, jumps that are led somewhere later, and what is written of values in registers, numerals and constants.
#![tactic(auto)]

mod comparisons;
mod emitter;
mod lists;
mod names;
mod operands;
mod operators;
mod word;

pub use comparisons::{Comparison, Places, comparing, flag};
pub use emitter::{Emitted, Emitter, Step, next};
pub use operands::{Operands, Second, key_staying, local_at, local_of};
pub use word::word_abc;
