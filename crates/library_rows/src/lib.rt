//! What the functions of the libraries do, as data over a few operations on tables (Lua 5.4 manual, 6), and the text of
//! those that are Lua. It has no code that runs: its public function states what is proved of the definitions.
#![tactic(auto)]

mod law;

pub use law::plain_rows_are_functions;
