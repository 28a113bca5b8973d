//! What a session was given and what its journal says of it: definitions and laws, and no code.
#![tactic(auto)]

mod entry;

pub use entry::Entry;
