//! Cases of sources, from their bytes to trees: what no clause of the crates up to the parser says of them.
//! They stand in a crate of their own, so that these crates are not proved once more for them.
#![tactic(auto)]

#[cfg(test)]
mod cases;
#[cfg(test)]
mod levels;
#[cfg(test)]
mod refusals;
#[cfg(test)]
mod tokens;
#[cfg(test)]
mod trees;
#[cfg(test)]
mod words;
