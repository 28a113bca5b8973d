//! Tests of the crates that know paths. They stand in a crate of their own, since a crate with tests is proved twice.
#![tactic(auto)]

#[cfg(test)]
mod normal_forms;
#[cfg(test)]
mod searches;
#[cfg(test)]
mod uris;
