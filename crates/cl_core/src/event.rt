use cl_base::{Path, Read};
use cl_query::{Done, Job, Need};
use cl_rpc::{Parsed, Reply};

/// How the input ended.
#[derive(Clone, Copy, PartialEq, Eq)]
pub enum Ending {
    /// At a frame's edge.
    Edge,
    /// The bytes are no frame.
    Bad,
    /// The source failed.
    Failed,
    /// More bytes came than a session may have.
    Long,
    /// Memory was wanting.
    Memory,
}

/// What happens to a session.
#[derive(Drop)]
pub enum Event {
    /// A message was taken.
    Message(Parsed),
    /// The header of this path was read. It comes next after the effect `Load` of this path.
    Loaded(Path, Read),
    /// A job was done.
    Done(Done),
    /// A job needs a header that its snapshot doesn't know.
    Need(Need),
    /// A job couldn't be done for want of memory.
    NoMemory(Job),
    /// The input ended.
    End(Ending),
}

/// What the session is to do.
#[derive(Drop)]
pub enum Effect {
    /// Write this reply.
    Reply(Reply),
    /// Do this job.
    StartJob(Job),
    /// Read the header of this path. The next event is its `Loaded`.
    Load(Path),
    /// End with this status.
    Finish(u8),
}
