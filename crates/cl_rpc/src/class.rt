//! What a message is to a session.

ghost use Rattle.std.specs.Prelude.{◌≡◌, option_map};
ghost use Rattle.cl_rpc.specs.Classes.{asks, class_behind, class_of, class_of_request, class_of_notification};

use crate::call::{Call, Parsed};
use crate::id::Id;
use cl_base::{List, Path, Query, Text};

/// The class of a message, with what a session needs of it. What stands above speaks of classes alone, so it knows no
/// single query.
#[derive(Clone, Copy)]
pub enum Class<'a> {
    /// The first request of a session.
    Initialises(&'a Id),
    /// The request to end the session's work.
    ShutsDown(&'a Id),
    /// A request that is answered by work on a document.
    Queries(&'a Id, Query, &'a Path),
    /// A request of a method that isn't a known request's.
    Unknown(&'a Id),
    /// A request with params that its method doesn't take; true exactly where the method is `initialize`.
    BadParams(&'a Id, bool),
    /// A body that is no message: its id, where one can be read, and the code of its refusal.
    Invalid(Option<&'a Id>, i32),
    /// A document was opened: its path, its version and its text.
    Opens(&'a Path, i64, &'a Text),
    /// A document was changed: its path, its new version and its new text.
    Changes(&'a Path, i64, &'a Text),
    /// A document was closed.
    Closes(&'a Path),
    /// A request is no longer wanted.
    Cancels(&'a Id),
    /// These files changed, in the order of the message.
    Watched(&'a List<Path>),
    /// The process is to end.
    Exits,
    /// A message without effect.
    Dropped,
}

impl Call {
    /// What a call asks, and about which document. `None` comes exactly where it is no query.
    pub fn asks(&self) -> Option<(Query, &Path)>
        ensures { option_map (λ question. (question.0, question.1.now)) result ≡ asks self.now }
    {
        match self {
            Call::Symbols(path) => Some((Query::Symbols, path)),
            _ => None,
        }
    }
}

impl Parsed {
    /// The class of a message.
    pub fn class(&self) -> Class<'_>
        ensures { class_behind result ≡ class_of self.now }
    {
        match self {
            Parsed::Request { id, call } => class_of_request(id, call),
            Parsed::Notification(call) => class_of_notification(call),
            Parsed::Refused { id, code } => Class::Invalid(id.as_ref(), *code),
            Parsed::Ignored => Class::Dropped,
        }
    }
}

/// The class of a request.
fn class_of_request<'a>(id: &'a Id, call: &'a Call) -> Class<'a>
    ensures { class_behind result ≡ class_of_request id.now call.now }
{
    match call {
        Call::Initialize => Class::Initialises(id),
        Call::Shutdown => Class::ShutsDown(id),
        Call::BadParams(is_initialize) => Class::BadParams(id, *is_initialize),
        _ => match call.asks() {
            Some((query, path)) => Class::Queries(id, query, path),
            None => Class::Unknown(id),
        },
    }
}

/// The class of a notification.
fn class_of_notification(call: &Call) -> Class<'_>
    ensures { class_behind result ≡ class_of_notification call.now }
{
    match call {
        Call::DidOpen(path, version, text) => Class::Opens(path, *version, text),
        Call::DidChange(path, version, Some(text)) => Class::Changes(path, *version, text),
        Call::DidClose(path) => Class::Closes(path),
        Call::Cancel(id) => Class::Cancels(id),
        Call::Watched(paths) => Class::Watched(paths),
        Call::Exit => Class::Exits,
        _ => Class::Dropped,
    }
}
