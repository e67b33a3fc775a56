//! Library functions that look at no table: those of `math` on integers, of `string` and `utf8`, and `tonumber` (lmathlib.c, lstrlib.c,
//! lutf8lib.c of Lua 5.4), over the values of a world in memory. Each gives what its row of `library_rows` says. A new string is all that
//! they add to the world.
#![tactic(auto)]

mod answer;
mod calls;
pub mod math;
mod plain;
mod quick;
mod shapes;
mod strings;
pub mod texts;

pub use answer::{Answer, all_from, argument};
pub use calls::{Function, call, over_texts};
pub use plain::{all_shapes, given, values_of};
pub use quick::{quick_first, there};
pub use shapes::{argument_shape, bad_argument, shape, table_argument, wrong_type};
pub use strings::string;
