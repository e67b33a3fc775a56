//! The values of a running program, and its tables.
#![tactic(auto)]

mod border;
mod flat_key;
mod indexed;
mod keyed;
mod rows;
mod table;
mod value;

pub use table::{NoSuchKey, Table};
pub use value::{CellId, CoroId, FuncId, Key, ProtoId, StrId, TableId, Value};
