//! What the items of a file declare at file scope.
#![tactic(auto)]

mod collect;
mod declared;
mod mention;
mod role;

pub use declared::outline;
pub use mention::{Mention, Sort};
