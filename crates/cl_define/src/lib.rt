//! What a `define` line defines, when two definitions are the same, and the macros that are predefined
//! (N1570 6.10.3, 6.10.8).
#![tactic(auto)]

mod body;
mod laws;
mod params;
mod read;
mod same;
mod start;
mod token;
mod valid;

pub use laws::{one_definition, some_definition};
pub use read::{object_like, read_define};
pub use same::is_same;
pub use start::{is_reserved, predefined};
