//! Whole scripts over devices in memory, with the status, the output and the line of the error that they give. They stand in a crate of their own, so that the
//! program is not proved once more for them.
#![tactic(auto)]

#[cfg(test)]
mod loads;
#[cfg(test)]
mod scripts;
