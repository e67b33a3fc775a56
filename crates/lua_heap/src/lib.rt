//! The objects of a world: strings, each once for its content (Lua's lstring.c), code, and what kept values stand for.
#![tactic(auto)]

mod adding;
mod captures;
mod cells;
mod closing;
mod codes;
mod coroutines;
mod errors;
mod functions;
pub mod law;
mod naming;
mod objects;
mod opening;
mod places;
mod strings;
mod texts;
mod trees;
mod world;

pub use codes::{Code, Codes};
pub use naming::type_name;
pub use strings::Strings;
pub use world::{Cell, Coro, Func, Mark, Prelude, World};
