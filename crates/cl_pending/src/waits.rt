//! What waits, and which of those that wait are meant.

use cl_base::Path;
use cl_rpc::Id;

/// A request that waits for its reply.
pub trait Waits: Drop {
    ghost use Rattle.std.specs.Prelude.{◌≡◌};
    ghost use Rattle.cl_pending.specs.Keys.{Key};

    /// What it is found by.
    ghost key: { Self → Key };

    /// The request's id.
    fn id(&self) -> &Id
        ensures { result.now ≡ (key self.now).id };

    /// The number of the message that made it.
    fn message(&self) -> u64
        ensures { result ≡ (key self.now).message };

    /// The path of the document that it is about.
    fn path(&self) -> &Path
        ensures { result.now ≡ (key self.now).path };
}

/// Which of the waiting requests are meant.
#[derive(Clone, Copy)]
pub enum Which<'a> {
    /// The one of this id.
    Id(&'a Id),
    /// Those on this document.
    Document(&'a Path),
    /// The one that this message made.
    Message(u64),
}
