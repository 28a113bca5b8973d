//! Where an outermost invocation stands.

use cl_base::Name;

/// Where an outermost invocation stands: `file` is the string literal of the file's path, and `line` the number of its
/// line, from 1 (N1570 6.10.8.1).
#[derive(Clone, Copy)]
pub(crate) struct Place<'a> {
    pub(crate) file: &'a Name,
    pub(crate) line: u64,
}
