//! The code of an expression talks as the expression does. The crate has no code that runs: its lemmas are for the
//! law of whole functions.
#![tactic(auto)]
