//! Paths by their text, and their `file` URIs: the file system is never asked.
#![tactic(auto)]

mod laws;
mod normal;
mod uri;

pub use laws::{one_normal_form, path_read_back};
pub use normal::{folder_of, join, normalise};
pub use uri::{path_of_uri, uri_of_path};
