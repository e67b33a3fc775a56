//! What a token is for the grammar, and a cursor over tokens (Lua 5.4 manual, 3.1 and 3.3).
#![tactic(auto)]

mod cursor;
mod level;
mod start;
pub mod token;
pub mod word;

pub use cursor::Cursor;
pub use level::Level;
pub use start::Start;
pub use word::Word;
