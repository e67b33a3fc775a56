//! The records of an image, placed in a world: strings and code first, then objects behind those that are there.
#![tactic(auto)]

mod placing;
mod texts;

pub use placing::place_all;
pub use texts::{Part, add_parts};
