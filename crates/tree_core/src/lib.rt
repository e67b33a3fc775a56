//! The trees that the parser makes of a source (Lua 5.4 manual, 3.3 and 3.4), as data.
#![tactic(auto)]

mod name;
mod operator;
mod tree;

pub use name::{Attrib, Declared, Name, Place, UpName};
pub use operator::{BinOp, UnOp};
pub use tree::{Arm, Block, Body, Exp, ExpNode, Field, Stat, StatNode};
