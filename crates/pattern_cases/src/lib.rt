//! Cases of patterns: what no clause of their crate says.
//! They stand in a crate of their own, so that it is not proved once more for them.
#![tactic(auto)]

#[cfg(test)]
mod patterns;
