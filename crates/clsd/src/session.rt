ghost use Rattle.std.specs.Prelude.{◌≡◌, ◌≢◌, ◌≤◌, ℕ, [], List, Some, None, Ok, IfOk, slice_get};
ghost use Rattle.cl_base.specs.Faults.{HasCause};
ghost use Rattle.cl_base.specs.Reads.{Reads};
ghost use Rattle.cl_base.specs.declared.config.Settings.{Settings};
ghost use Rattle.cl_history.specs.Given.{Given};
ghost use Rattle.cl_rpc.specs.Messages.{message_in};
ghost use Rattle.cl_core.specs.Standing.{IsIdle, StandsFor, journal_of, messages_taken, reads_taken};
ghost use Rattle.cl_core.specs.Steps.{status_of};
ghost use Rattle.clsd.specs.Serving.{ended_with, EndsInput, Keeps, LeavesIdle, Making, Turns};
ghost use Rattle.clsd.specs.Sessions.{MakesReads, SerialSession};

use crate::outcome::{NO_MEMORY, SINK_FAILED};
use crate::turn::{Turn, finish_of, take_message};
use cl_base::{HeaderSource, Mem, Memory, Text};
use cl_core::{Core, Ending, Event};
use cl_frames::{Frame, Frames, Sink, Source};
use cl_rpc::message_of;
use std::alloc::Global;

/// How a session ended: its status, and with a bad frame that frame's offset in bytes.
#[derive(Clone, Copy, PartialEq, Eq)]
pub struct Ended {
    pub status: u8,
    pub at: u64,
}

/// More than the frames that can come before a session's 2^40th byte.
const MOST_FRAMES: u64 = 0x100_0000_0000;

/// Takes messages until the session ends.
pub fn run<S: Source, K: Sink, H: HeaderSource>(
    alloc: Global,
    frames: &mut Frames,
    core: &mut Core,
    source: &mut S,
    sink: &mut K,
    headers: &mut H,
) -> Ended
    requires taken { frames.old.taken ≡ 0 }
    requires last { frames.old.last ≡ None }
    requires journal { journal_of core.old ≡ [] }
    requires idle { IsIdle core.old }
    ensures session { (config : Settings) (bytes : List ℕ) → ((given : Given) → given.config ≡ config → StandsFor given core.old)
        → S.left source.old ≡ Some bytes → K.held sink.old ≡ Some []
        → (reads : Reads) × MakesReads (H.reads headers.old) (H.reads headers.new) (H.faults headers.old) (H.faults headers.new) reads
        × SerialSession config bytes reads (S.left source.new) (K.held sink.new) (journal_of core.new) result.status result.at }
    ensures source { HasCause (S.faults source.old) (S.faults source.new) (result.status ≡ 4) }
    ensures sink { HasCause (K.faults sink.old) (K.faults sink.new) (result.status ≡ 5) }
    ensures words { result.status ≢ 6 }
    ensures faults { H.faults headers.old ≤ H.faults headers.new }
{
    for count in 0..MOST_FRAMES {
        let _ = count;
        match frames.read_frame(alloc, source) {
            Frame::Body(body) => match take_body(alloc, core, sink, headers, &body) {
                Ok(Turn::GoesOn) => {}
                Ok(Turn::Ends(status)) => return Ended { status, at: 0 },
                Ok(Turn::SinkFailed) => return Ended {
                    status: SINK_FAILED,
                    at: 0,
                },
                Err(Memory) => return Ended {
                    status: NO_MEMORY,
                    at: 0,
                },
            },
            Frame::End => return ended_with(end(alloc, core, Ending::Edge), 0),
            Frame::Bad { offset } => return ended_with(end(alloc, core, Ending::Bad), offset),
            Frame::Failed => return ended_with(end(alloc, core, Ending::Failed), 0),
            Frame::Long => return ended_with(end(alloc, core, Ending::Long), 0),
            Frame::Memory => return ended_with(end(alloc, core, Ending::Memory), 0),
        }
    }
    unreachable!()
}

/// Takes the body of a frame.
fn take_body<K: Sink, H: HeaderSource>(
    alloc: Global,
    core: &mut Core,
    sink: &mut K,
    headers: &mut H,
    body: &Text,
) -> Mem<Turn>
    ensures turn { Making (H.reads headers.old) (H.reads headers.new) (H.faults headers.old) (H.faults headers.new) (reads_taken core.old)
        (λ given made. (held : List ℕ) → slice_get given.messages (messages_taken core.old) ≡ Some (message_in body.now)
        → Keeps given core.old held → K.held sink.old ≡ Some held
        → Turns given core.old (message_in body.now) core.new made (K.held sink.new) result) }
    ensures idle { IsIdle core.old → LeavesIdle core.new result }
    ensures cause { HasCause (K.faults sink.old) (K.faults sink.new) (result ≡ Ok Turn.SinkFailed) }
{
    match message_of(alloc, body.bytes()) {
        Ok(parsed) => take_message(alloc, core, sink, headers, parsed),
        Err(Memory) => Err(Memory),
    }
}

/// Ends the session where the input ended, and tells the status.
fn end(alloc: Global, core: &mut Core, ending: Ending) -> Mem<u8>
    ensures turn { (given : Given) (held : List ℕ) → Keeps given core.old held → EndsInput given core.old ending core.new held result }
    ensures status { IsIdle core.old → IfOk result (λ status. status ≡ status_of ending) }
{
    match core.step(alloc, Event::End(ending)) {
        Ok(effects) => match finish_of(effects.as_slice()) {
            Some(status) => Ok(status),
            None => Err(Memory),
        },
        Err(Memory) => Err(Memory),
    }
}

/// The end with this status and offset, or for want of memory.
fn ended_with(status: Mem<u8>, at: u64) -> Ended
    ensures { result ≡ ended_with status at }
{
    match status {
        Ok(status) => Ended { status, at },
        Err(Memory) => Ended {
            status: NO_MEMORY,
            at: 0,
        },
    }
}
