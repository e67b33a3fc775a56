//! The tokens of a source text (Lua 5.4 manual, 3.1).
#![tactic(auto)]

// Tokens, and the numbers of words and marks.
pub mod keyword;
pub mod mark;
mod token;
mod words;

// Bytes, digits and places.
mod class;
mod digits;
mod line;

// What stands at the front of a text, and what of it is skipped.
mod bracket;
mod gap;
mod kind;

// Literal strings between quotes.
mod escape;
mod quoted;
mod utf8;

// One token, and the list of them.
mod scan;
mod source;

pub use source::{LexFault, MAX_SOURCE, tokens};
pub use token::{Token, Tokens};
pub use words::{KEYWORDS, MARKS};
