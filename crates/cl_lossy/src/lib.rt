//! Bytes shown as text.
#![tactic(auto)]

mod lossy;

pub use lossy::shown;
