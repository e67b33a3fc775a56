//! What `load` comes to (Lua 5.4 manual, 6.1): by its arguments, and by what each source is built to. The crate has no code that runs.
#![tactic(auto)]
