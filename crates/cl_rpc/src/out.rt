use crate::id::Id;
use cl_base::Answer;

/// How a message came to its reply: with an answer, after a cancel, after a change of the text
/// that was asked about, by a refusal, or for want of memory.
#[derive(Clone, Copy, PartialEq, Eq)]
pub enum How {
    Answered,
    Cancelled,
    Modified,
    Refused,
    Memory,
}

/// What a reply tells: the server's capabilities, `null`, an answer, or an error's code
/// (JSON-RPC 2.0, section 5.1).
#[derive(Drop)]
pub enum Out {
    Capabilities,
    Null,
    Answer(Answer),
    Error(i32),
}

/// A reply. `message` is the number of the message that it replies to and `mark` the place in the
/// session at which it is given, both from 0; neither is written. `id` is `None` where none could
/// be read.
#[derive(Drop)]
pub struct Reply {
    pub message: u64,
    pub mark: u64,
    pub how: How,
    pub id: Option<Id>,
    pub out: Out,
}
