//! The static rules of a source, and where the value of each variable's name is found
//! (Lua 5.4 manual, 3.3.4, 3.3.7, 3.3.8 and 3.5).
#![tactic(auto)]

mod frame;
mod functions;
mod held;
mod nesting;
mod places;
mod placing;
mod resolved;
mod variable;
mod violation;

pub use frame::{FunctionScope, Source};
pub use functions::Functions;
pub use held::{held_by, held_by_list, held_by_name, held_by_stat, held_by_targets, held_by_tests};
pub use nesting::Nesting;
pub use places::place;
pub use resolved::{Resolved, ScopeFault};
pub use variable::Variable;
pub use violation::{Least, Violation};
