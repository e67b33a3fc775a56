//! The bytes of an image as records, or the first fault in their order.
#![tactic(auto)]

mod code;
mod fault;
mod frame;
mod image;
mod input;
mod item;
mod object;
mod rows;

pub use fault::{ReadFault, Refusal};
pub use image::read_image;
