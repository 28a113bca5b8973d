//! Tests of the crates that know types. They stand in a crate of their own, since a crate with tests is proved twice.
#![tactic(auto)]

#[cfg(test)]
mod layouts;
#[cfg(test)]
mod relations;
