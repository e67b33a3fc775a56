//! What the records of an image become in a world: the numbers of objects, values, tables and stacks.
#![tactic(auto)]

mod making;
mod place;
mod stack;

pub use making::Maker;
pub use place::{Place, coroutine_at, places_of};
pub use stack::Opening;
