//! What preprocessing gives.

use crate::work::PpWork;
use cl_base::{Diag, List, MacroEvent, Name, Path, PpToken};
use cl_headers::Dep;
use cl_macro::MacroUse;

/// What preprocessing gives (N1570 5.1.1.2 phase 4): the tokens of the active lines after macro replacement, in order; the
/// events, which give a name a macro or take it, in order; the paths of the files that include lines entered, each once, in
/// the order in which that was done first, so that the first one's number is 1; the numbers of those that are entered once
/// only; the headers that were asked for, each time anew, in order; the uses of macros that have an event, each with the
/// number of tokens that stand before its outermost invocation; the names whose macro was looked up, each once, in the order
/// in which that was done first; and the faults.
#[derive(Drop)]
pub struct PpDone {
    pub tokens: List<PpToken>,
    pub events: List<MacroEvent>,
    pub files: List<Path>,
    pub once: List<u32>,
    pub deps: List<Dep>,
    pub uses: List<MacroUse>,
    pub looked: List<Name>,
    pub faults: List<Diag>,
}

/// What becomes of a text: what preprocessing gives, or the first header that was asked for and of which nothing is known.
#[derive(Drop)]
pub enum PpAnswer {
    Done(PpDone),
    Need(Path),
}

/// A header that is needed: its path, the headers that were asked for so far, in order, each with what was known of it, this
/// one last, and the work, which goes on where more is known.
#[derive(Drop)]
pub struct PpNeed {
    pub path: Path,
    pub seen: List<Dep>,
    pub work: PpWork,
}

/// Where work on a text stops: at its end, with what preprocessing gives, or at the first header that was asked for and of
/// which nothing is known.
#[derive(Drop)]
pub enum PpStep {
    Done(PpDone),
    Need(PpNeed),
}
