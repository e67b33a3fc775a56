//! The objects that some values of a world in memory reach, in the order in which they are first met: what an image writes, in its order
//! (Eris's manual, `eris.persist` and permanent values).
#![tactic(auto)]

mod coroutines;
mod fields;
mod inverting;
mod numbering;
mod object;
mod permanents;
mod walk;

pub use fields::metatable_of;
pub use inverting::inverse;
pub use numbering::{Numbering, reach};
pub use object::{Object, Sort};
pub use permanents::{Permanent, PermanentKey, PermanentSort, Permanents};
pub use walk::{is_table, item_at};
