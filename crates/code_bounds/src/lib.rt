//! Code fits its fields: it is short by the weight of its tree, and what it names is there, its constants, functions and registers.
//! The crate has no code that runs. Its public functions state what is proved.
#![tactic(auto)]

mod law;

pub use law::{
    code_is_short, constants_are_few, constants_are_numbered, functions_are_few,
    functions_are_numbered, registers_are_counted, registers_are_enough,
};
