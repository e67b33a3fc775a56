//! Scripts whose code the machine runs, from the world of the libraries: computed to what the trees of these scripts mean.
#![tactic(auto)]
