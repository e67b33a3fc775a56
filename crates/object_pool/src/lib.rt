//! Pools of objects: a list that grows at its end, and is cut back to a mark.
#![tactic(auto)]

mod pool;
mod segments;

pub use pool::Pool;
