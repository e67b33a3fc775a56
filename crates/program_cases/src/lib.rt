//! Cases of the program's calls over devices in memory: arguments, files, sources and chunks that are refused, compiled, checked or run, lines, sessions one after
//! another, images that are altered, and devices that fail. They stand in a crate of their own, so that the program is not proved once more for them.
#![tactic(auto)]

#[cfg(test)]
mod cases;
