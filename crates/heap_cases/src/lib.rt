//! Cases of stacks and objects in memory: what no clause of their crates says.
//! They stand in a crate of their own, so that these crates are not proved once more for them.
#![tactic(auto)]

#[cfg(test)]
mod objects;
#[cfg(test)]
mod stacks;
