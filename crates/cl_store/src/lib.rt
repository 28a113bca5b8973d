//! The documents that are open, each with the version and the text that came last.
#![tactic(auto)]

mod docs;

pub use docs::{Changed, Closed, Doc, Docs, Opened};
