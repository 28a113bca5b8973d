ghost use Rattle.std.specs.Prelude.{◌≡◌};
ghost use Rattle.cl_macro.specs.Levels.{seen_word};
ghost use Rattle.cl_macro.specs.Words.{place_of};

use crate::segment::Slot;
use crate::word::{Word, place_of};
use cl_base::{PpToken, Span};

/// A token that is looked at: one that a replacement made, one that an invocation took, or one of the run.
#[derive(Clone, Copy)]
pub(crate) enum Seen<'a> {
    Made(&'a Word),
    Kept(&'a Slot),
    Run(&'a PpToken),
}

impl Seen<'_> {
    /// Where the run has it.
    pub(crate) fn place(&self) -> Option<Span>
        ensures { result ≡ place_of (seen_word self.now) }
    {
        match self {
            Seen::Made(word) => place_of(word),
            Seen::Kept(_) => None,
            Seen::Run(token) => Some(token.at),
        }
    }
}
