//! What a line aims at.

use cl_base::{Name, Path, Span};

/// A header that tokens name: whether it stands between `<` and `>`, what stands there or between quotes, and where a token
/// stands behind it, if there is one.
#[derive(Drop)]
pub struct Named {
    pub angled: bool,
    pub name: Name,
    pub extra: Option<Span>,
}

/// A header that a line names (N1570 6.10.2): whether it stands between `<` and `>`, what stands there or between quotes,
/// and where the line names it.
#[derive(Drop)]
pub struct Target {
    pub angled: bool,
    pub name: Path,
    pub at: Span,
}

/// What a line aims at: nothing more than it adds, that its file is entered once only, or a header that is to be entered.
#[derive(Drop)]
pub enum Aim {
    Nothing,
    Once,
    Header(Target),
}

/// What a line comes to beside what it adds: whether its condition is fulfilled, if it begins a branch, and what it aims at.
#[derive(Drop)]
pub struct Came {
    pub held: bool,
    pub aim: Aim,
}
