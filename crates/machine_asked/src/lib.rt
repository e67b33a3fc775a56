//! Values that were asked for and are called in a step of their own, on a world in memory: closing methods and `__concat` handlers of a frame that went on,
//! message handlers, what `pcall` and `xpcall` call (luaD_call of Lua 5.4).
#![tactic(auto)]

mod asked;

pub use asked::call_asked;
