//! The items of a file, and whether a file ends whole.
#![tactic(auto)]

mod ahead;
mod extent;
mod item;
mod laws;
mod marks;
mod parse;
mod token;
mod whole;

pub use item::Item;
pub use laws::{one_item_list, some_item_list};
pub use parse::items;
pub use token::{span_at, text_at};
pub use whole::ends_whole;
