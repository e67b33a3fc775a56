//! The code of expressions (Lua 5.4 manual, 3.4), written behind the code of the function that they stand in: also where only the truth is wanted, and where the value is stored.
#![tactic(auto)]

mod chains;
mod conditions;
mod expressions;
mod items;
mod keeping;
mod lists;
mod literals;
mod locals;
mod quiet;
mod stores;
mod targets;

pub use conditions::condition;
pub use expressions::{expression, list, operand, pass, pass_method};
pub use lists::{is_open, list_field, lone_local};
pub use locals::{direct, direct_local};
pub use stores::{is_field, store};
pub use targets::{aim_field, aim_name, local_store, store_name, store_waiting};
