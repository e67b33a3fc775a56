//! Terms for what is in a piece of a tree: the locals in scope, the labels that a `goto` may name, and how much the piece weighs. The crate has no code that runs.
#![tactic(auto)]
