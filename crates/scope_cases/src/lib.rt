//! Cases of the places of names, of the static rules, and of whole sources that are refused: what no clause of
//! the crates that resolve names says of them. They stand in a crate of their own, so that these crates are not
//! proved once more for them.
#![tactic(auto)]

#[cfg(test)]
mod places;
#[cfg(test)]
mod prelude;
#[cfg(test)]
mod rules;
#[cfg(test)]
mod sources;
