//! Texts in UTF-8 with sequences of up to six bytes, for numbers below 2^31 (Lua 5.4 manual, 6.5). Each function is the one
//! by which `library_rows` says what the library's function gives.
#![tactic(auto)]

mod counting;
mod decoding;
mod encoding;
mod offsets;
mod walking;

pub use counting::count;
pub use decoding::{Decoded, behind, continued, decode};
pub use encoding::push_code;
pub use offsets::{back, continues_at, forward, sequence_start};
pub use walking::{Step, walk};
