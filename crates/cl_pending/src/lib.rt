//! The requests that wait for their replies, in the order of their receipt, found by their ids, their documents and
//! their messages. What work a request waits for is a parameter.
#![tactic(auto)]

mod index;
mod pending;
mod waits;

pub use pending::Pending;
pub use waits::{Waits, Which};
