//! What is known while files are gone over.

use crate::done::PpDone;
use crate::section::Section;
use crate::seen::Seen;
use cl_base::{Fault, Lexed, LineTable, List, Path, Text};
use cl_cond::Mark;
use cl_headers::Dep;
use std::alloc::Global;
use std::collections::BTreeMap;
use std::sync::Arc;

/// A file: its number, its path, its lines, and the faults of lexing by the bytes at which they begin.
#[derive(Clone, Copy)]
pub(crate) struct File<'a> {
    pub(crate) number: u32,
    pub(crate) path: &'a Path,
    pub(crate) lines: &'a LineTable,
    pub(crate) told: &'a BTreeMap<u32, Fault>,
}

/// A file that is gone over: its number, how many include lines lead to it, its path, its text, and what the text's tokens
/// and lines are.
#[derive(Drop)]
pub(crate) struct Source {
    pub(crate) number: u32,
    pub(crate) depth: u32,
    pub(crate) path: Path,
    pub(crate) text: Text,
    pub(crate) opened: Arc<Opened, Global>,
}

/// A place between the lines of a file: the number of the line that comes next, and the sections that are open, the
/// innermost last.
#[derive(Drop)]
pub(crate) struct Place {
    pub(crate) next: usize,
    pub(crate) sections: List<Section>,
}

/// A file that is open: what it is, and the place up to which it was gone over.
#[derive(Drop)]
pub(crate) struct Frame {
    pub(crate) source: Source,
    pub(crate) place: Place,
}

/// A header that was found and is to be entered.
#[derive(Drop)]
pub(crate) struct Found {
    pub(crate) number: u32,
    pub(crate) path: Path,
    pub(crate) text: Text,
}

/// What the search for a header comes to: nothing more is to be done, a file is to be entered, or nothing is known of this
/// path, where these headers were asked for, that one last.
#[derive(Drop)]
pub(crate) enum Reached {
    Nothing,
    Enters(Found),
    Needs(Path, List<Dep>),
}

/// A header of which nothing is known: its path, and all headers that were asked for, in order, this one last.
#[derive(Drop)]
pub(crate) struct Wanted {
    pub(crate) path: Path,
    pub(crate) seen: List<Dep>,
}

/// A text's tokens, the faults of its sections, the lines that the tokens make, and what else lexing tells.
#[derive(Drop)]
pub(crate) struct Opened {
    pub(crate) lexed: Lexed,
    pub(crate) faults: List<Fault>,
    pub(crate) marks: List<Mark>,
    pub(crate) lines: LineTable,
    pub(crate) told: BTreeMap<u32, Fault>,
}

/// What is made so far. `seen` has the names of `done.looked`.
#[derive(Drop)]
pub(crate) struct Made {
    pub(crate) done: PpDone,
    pub(crate) seen: Seen,
}

/// How the tokens before an invocation are counted.
#[derive(Clone, Copy)]
pub(crate) enum Reach {
    /// In a run of text, before which so many tokens stand.
    Run(u32),
    /// In a directive, before which so many tokens stand. Its own tokens don't count.
    Directive(u32),
}
