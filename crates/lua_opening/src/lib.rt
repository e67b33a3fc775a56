//! The world before a script: the tables of the libraries and the functions of the prelude (`luaL_openlibs` of Lua's sources); and whether a table is still
//! the prelude's environment.
#![tactic(auto)]

mod comparing;
mod functions;
mod opening;
mod rows;
mod tables;

pub use opening::{open, rules_hold};
pub use tables::is_environment;
