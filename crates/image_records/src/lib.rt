//! The records of an image, what the keys of permanents stand for, and whether records fit their code.
#![tactic(auto)]

mod fitting;
mod known;
mod record;

pub use fitting::all_fit;
pub use known::{Known, Named};
pub use record::{Frame, Image, Item, Key, Kind, LuaFrame, Record, Sort, Wait};
