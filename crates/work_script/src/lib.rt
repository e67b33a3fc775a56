//! The script that `luaris work` runs, made for its number of functions.
#![tactic(auto)]

mod script;

pub use script::work_script;
