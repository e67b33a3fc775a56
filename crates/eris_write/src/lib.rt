//! An image of what some values of a world in memory reach, as bytes (Eris's manual, `eris.persist`; docs/IMAGES.md).
#![tactic(auto)]

mod cells;
mod coroutines;
mod fault;
mod frames;
mod functions;
mod image;
mod keys;
pub mod law;
mod output;
mod records;
mod tables;
mod values;
mod writer;

pub use fault::{PersistFault, Refusal};
pub use image::persist;
