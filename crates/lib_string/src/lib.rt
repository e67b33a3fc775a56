//! The functions of `string` (Lua 5.4 manual, 6.4, and `lstrlib.c`) that look at no table, and `tonumber` (6.1). Each takes the shapes of
//! all arguments and answers what its row in `library_rows` says: its results, or its error.
#![tactic(auto)]

mod building;
mod bytes;
mod expanding;
mod faults;
mod filling;
mod format_reading;
mod formatting;
mod matching;
mod numbers;
mod quick;
mod quick_searches;
mod repeating;
mod seeking;

pub use bytes::{Change, byte, changed, char, len, sub};
pub use expanding::expand;
pub use filling::{kinds, layout};
pub use matching::{find, match_pattern};
pub use numbers::{from, toint, tonumber};
pub use quick::{Quick, quick_byte, quick_sub};
pub use quick_searches::{quick_find, quick_match};
pub use repeating::rep;
pub use seeking::{Sought, seek};
