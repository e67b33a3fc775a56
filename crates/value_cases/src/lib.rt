//! Cases of integers, devices, pools and tables: what no clause of their crates says.
//! They stand in a crate of their own, so that these crates are not proved once more for them.
#![tactic(auto)]

#[cfg(test)]
mod devices;
#[cfg(test)]
mod integers;
#[cfg(test)]
mod pools;
#[cfg(test)]
mod tables;
