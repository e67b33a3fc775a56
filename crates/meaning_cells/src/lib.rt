//! A script means the same whether a local variable gets its cell as it is declared or before the first function that captures it.
//! The crate has no code that runs. Its public functions state what is proved.
#![tactic(auto)]

mod law;

pub use law::{cells_do_not_show, opening_changes_nothing};
