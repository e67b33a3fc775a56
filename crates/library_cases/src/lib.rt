//! Cases of the libraries' functions by their arguments and results: what no clause of their crates says.
//! They stand in a crate of their own, so that these crates are not proved once more for them.
#![tactic(auto)]

#[cfg(test)]
mod cases;
