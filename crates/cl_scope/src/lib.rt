//! The scopes that hold a place, what the declarations so far tell over a base, and the steps that the meaning of an item
//! may take.
#![tactic(auto)]

mod asking;
mod base;
mod changed;
mod entities;
mod history;
mod laws;
mod made;
mod open;
mod scopes;

pub use base::Base;
pub use changed::Lasting;
pub use history::{Entry, Local, Within};
pub use laws::{keeps, nothing_is_sound, only_adds, resumes, stands, visible_is_last};
pub use made::{Bound, Made, PlacedUse, Settled};
pub use scopes::Scopes;
