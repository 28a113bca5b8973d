//! The outside objects of a session, sources of bytes and sinks for them, and the frames that pass through them.
#![tactic(auto)]

mod frame;
mod header;
mod memory_sink;
mod memory_source;
mod next_byte;
mod outside;
mod sessions;
mod std_sink;
mod std_source;
mod write;

pub use frame::{
    Frame, Frames, first_can_go_on, first_has_form, first_has_room, first_is_stable, first_of_frame,
};
pub use header::LONGEST_BODY;
pub use memory_sink::MemorySink;
pub use memory_source::MemorySource;
pub use outside::{Got, Sink, Source, Took};
pub use sessions::session_splits_once;
pub use std_sink::StdSink;
pub use std_source::StdSource;
pub use write::{Written, write_frame};
