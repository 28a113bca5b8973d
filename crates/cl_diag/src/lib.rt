//! Diagnostics: their order, and how severe they are.
#![tactic(auto)]

mod laws;
mod order;
mod rank;
mod severity;
mod texts;

pub use laws::{one_order, some_order};
pub use order::ordered;
pub use severity::severity_of;
pub use texts::text_of;
