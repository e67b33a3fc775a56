//! The conversions of `string.format` (Lua 5.4 manual, 6.4). Each function puts at the end of a text what `library_rows`
//! says that the conversion gives.
#![tactic(auto)]

mod conversion;
mod digits;
mod numbers;
mod padding;
mod quoting;
mod texts;

pub use conversion::Conversion;
pub use numbers::{Base, append_signed, append_unsigned};
pub use quoting::{append_quoted, append_quoted_integer};
pub use texts::{append_byte, append_text};
