//! Lemmas on lists and on tests of numbers that many proofs use. The crate has no code that runs.
#![tactic(auto)]
