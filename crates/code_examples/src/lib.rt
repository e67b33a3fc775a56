//! Bodies whose code is written by hand: `code_of` computes to it, and it does what the body does.
#![tactic(auto)]
