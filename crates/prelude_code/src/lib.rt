//! The code of the prelude: the functions of the libraries that are Lua text (Lua 5.4 manual, 6).
#![tactic(auto)]

mod fault;
mod prelude;

pub use fault::PreludeFault;
pub use prelude::prelude_code;
