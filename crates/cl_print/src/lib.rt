//! Types as C writes them.
#![tactic(auto)]

mod printing;

pub use printing::print;
