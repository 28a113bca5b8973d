//! Tests of scopes, over pages of declarations. They stand in a crate of their own, since a crate with tests is proved twice.
#![tactic(auto)]

#[cfg(test)]
mod declaring;
#[cfg(test)]
mod many;
#[cfg(test)]
mod pages;
