//! Cases of code that is written for a source, by words worked out by hand.
//! They stand in a crate of their own, so that what writes code needs no parser.
#![tactic(auto)]

#[cfg(test)]
mod cases;
