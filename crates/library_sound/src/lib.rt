//! That the functions of the library keep the machine's worlds sound, each by its row.
#![tactic(auto)]

pub mod law;
