//! Sizes, alignments and constant expressions.
#![tactic(auto)]

mod constants;
mod laws;
mod layout;
mod reading;
mod room;
mod tag_key;
mod view;
mod work;
mod worth;

pub use constants::{Value, eval_const};
pub use laws::{known_in_range, members_apart, members_in_place, one_layout, some_layouts};
pub use layout::Layout;
pub use reading::Reading;
pub use room::Room;
pub use view::Members;
pub use work::{offsets, size_align};
pub use worth::Worth;
