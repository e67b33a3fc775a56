//! Cases of instructions, chunks and the rules on code: what no clause of their crates says.
//! They stand in a crate of their own, so that these crates are not proved once more for them.
#![tactic(auto)]

#[cfg(test)]
mod chunks;
#[cfg(test)]
mod instructions;
#[cfg(test)]
mod rules_on_code;
