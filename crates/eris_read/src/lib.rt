//! Images read into a world in memory (Eris's manual, `eris.unpersist`).
#![tactic(auto)]

mod known;
mod loading;
mod unpersisting;

pub use image_reading::{ReadFault, Refusal};
pub use image_records::Key;
pub use unpersisting::unpersist;
