//! Tests of frames and messages: what is read off bytes, what a body says, how a reply is written. They stand in a crate
//! of their own, since a crate with tests is proved twice.
#![tactic(auto)]

#[cfg(test)]
mod bodies;
#[cfg(test)]
mod edges;
#[cfg(test)]
mod frames;
#[cfg(test)]
mod large;
#[cfg(test)]
mod replies;
