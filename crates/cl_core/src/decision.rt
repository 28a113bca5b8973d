use crate::event::Effect;
use crate::waiting::Waiting;
use cl_base::{List, Path, Text};
use cl_headers::HeaderMap;
use cl_pending::Which;

/// What a message does to the documents, and the request that starts to wait by it.
#[derive(Drop)]
pub enum Work<'a> {
    /// Nothing.
    Nothing,
    /// The document of this path has this version and this text from now on.
    Puts(&'a Path, i64, &'a Text),
    /// The document of this path is closed.
    Closes(&'a Path),
    /// This request starts to wait.
    Starts(Waiting),
}

/// What a message leads to, as one value: the replies that come directly after it, the waiting requests that it ends,
/// the work that it begins, and the facts of the session from then on.
#[derive(Drop)]
pub struct Decision<'a> {
    pub replies: List<Effect>,
    pub ends: Option<Which<'a>>,
    pub work: Work<'a>,
    pub initialised: bool,
    pub shut_down: bool,
    pub ending: Option<u8>,
    pub headers: HeaderMap,
}
