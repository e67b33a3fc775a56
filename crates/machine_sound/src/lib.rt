//! That checked code never traps: laws on the machine's definition, each the contract of a function that does nothing.
#![tactic(auto)]

mod law;

pub use law::{
    library_rows_do_not_trap, primitives_do_not_trap, rows_do_not_trap, some_world_is_sound,
    steps_do_not_trap, texts_do_not_trap,
};
