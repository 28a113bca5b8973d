//! Tests of the crates of a session: replies to queries, documents, headers and the core. They stand in a crate of their
//! own, since a crate with tests is proved twice.
#![tactic(auto)]

#[cfg(test)]
mod documents;
#[cfg(test)]
mod header_map;
#[cfg(test)]
mod large;
#[cfg(test)]
mod many_works;
#[cfg(test)]
mod queries;
#[cfg(test)]
mod snapshots;
#[cfg(test)]
mod step_rows;
#[cfg(test)]
mod steps;
