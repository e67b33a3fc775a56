//! The prelude's code keeps its environment to itself.
#![tactic(auto)]

#[cfg(test)]
mod guard;
