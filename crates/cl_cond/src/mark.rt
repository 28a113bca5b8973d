//! The lines of a file as conditional inclusion sees them.

use cl_base::{Fault, List};

/// What begins a branch of an if-section: `#if`, `#ifdef`, `#ifndef`, `#elif` or `#else` (N1570 6.10). The first three
/// begin the section too.
#[derive(Clone, Copy)]
pub enum Condition {
    If,
    IfDef,
    IfNDef,
    Elif,
    Else,
}

/// What a line is to conditional inclusion.
#[derive(Clone, Copy)]
pub enum Part {
    /// A text line, or a directive that isn't one of these.
    Line,
    /// The begin of a branch.
    Branch(Condition),
    /// `#endif`: a section's end.
    End,
}

/// A line: what it is, and its tokens by their numbers in the file, from 0: from the first one up to, and without, the
/// second one.
#[derive(Clone, Copy)]
pub struct Mark {
    pub part: Part,
    pub from: u32,
    pub to: u32,
}

/// The structure of a file (N1570 6.10), flat, so that neither code nor a drop goes as deep as sections are nested.
/// `marks` are its lines in order, without those that have fault 12 or 13. They are well nested: a section is its if-line
/// with its lines, any `#elif` with theirs, at most one `#else` with its own, and its `#endif`. A section with fault 14
/// has no `#endif` and ends with its file.
///
/// `faults` are in the order of their lines. Each one's range is that of the name of its directive.
///
/// - 12: `elif`, `else` or `endif` outside an if-section.
/// - 13: `elif` or `else` after the section's `else`.
/// - 14: `if`, `ifdef` or `ifndef` of a section without an `endif`.
#[derive(Drop)]
pub struct Groups {
    pub marks: List<Mark>,
    pub faults: List<Fault>,
}
