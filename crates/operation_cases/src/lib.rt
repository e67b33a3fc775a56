//! Cases of operations on values in memory, by the handlers of metatables: what no clause of their crate says.
//! They stand in a crate of their own, so that it is not proved once more for them.
#![tactic(auto)]

#[cfg(test)]
mod operations;
