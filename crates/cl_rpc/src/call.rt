use crate::id::Id;
use cl_base::{List, Path, Text};

/// What a request or a notification asks for (LSP 3.17). A document is named by the path of its URI.
#[derive(Drop)]
pub enum Call {
    /// The first request of a session.
    Initialize,
    /// The request to end the session's work.
    Shutdown,
    /// The notification that ends the process.
    Exit,
    /// A document was opened: its path, its version and its text.
    DidOpen(Path, i64, Text),
    /// A document was changed: its path, its new version and its whole new text, the last of the
    /// message's list. The text is `None` where that list is empty.
    DidChange(Path, i64, Option<Text>),
    /// The document of this path was closed.
    DidClose(Path),
    /// The request of this id is no longer wanted.
    Cancel(Id),
    /// The files of these paths changed on disk, in the order of the message
    /// (workspace/didChangeWatchedFiles).
    Watched(List<Path>),
    /// The request for the symbols of the document of this path.
    Symbols(Path),
    /// A request of another method.
    Unknown,
    /// A method that is known, with params that it doesn't take. The flag is true exactly where
    /// the method is `initialize`.
    BadParams(bool),
}

/// What a body is.
#[derive(Drop)]
pub enum Parsed {
    /// A message that wants a reply.
    Request { id: Id, call: Call },
    /// A message that wants none.
    Notification(Call),
    /// A response, or a notification of a method that isn't known: nothing is to be done.
    Ignored,
    /// No JSON (the code -32700), or JSON that is no message (-32600). `id` is the id that stands
    /// in it, where one can be read.
    Refused { id: Option<Id>, code: i32 },
}
