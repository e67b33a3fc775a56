//! What one activation of a function does, as steps on the function's tree. The crate has no code that runs.
#![tactic(auto)]
