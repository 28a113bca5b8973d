//! Headers that were asked for.

use cl_base::{Known, Path};

/// A header that was asked for: its path, and what was known of it, `Unknown` where nothing was.
#[derive(Drop)]
pub struct Dep {
    pub path: Path,
    pub known: Known,
}
