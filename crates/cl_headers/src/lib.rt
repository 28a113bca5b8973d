//! What is known of headers, by their paths, and the search for one.
#![tactic(auto)]

mod dep;
mod finding;
mod laws;
mod map;
mod resolving;
mod tree;
mod view;

pub use dep::Dep;
pub use finding::find_header;
pub use laws::{one_resolution, some_resolution};
pub use map::HeaderMap;
pub use resolving::{Resolved, resolve};
pub use view::{HeaderView, MapView};
