ghost use Rattle.std.specs.Prelude.{◌≡◌, ◌++◌, [], ◌∷◌, ℕ, List, Option, Some, None, Ok, IfOk, IsTrue, false, slice_get, take};
ghost use Rattle.std.specs.Io.KnownBytes.{append_known};
ghost use Rattle.cl_base.specs.Faults.{HasCause};
ghost use Rattle.cl_core.specs.Standing.{IsIdle, WorksOn, finish_of, frames_of, jobs_of, messages_taken, reads_taken};
ghost use Rattle.clsd.specs.First.{first_of};
ghost use Rattle.clsd.specs.Serving.{frame_of, turn_of, EndsWork, Keeps, LeavesIdle, Making, Turns, Works};

use crate::work::work;
use cl_base::{Duplicate, HeaderSource, Mem, Memory};
use cl_core::{Core, Effect, Event};
use cl_frames::{Sink, Written, write_frame};
use cl_query::Job;
use cl_rpc::{Parsed, reply_text};
use std::alloc::Global;

/// How a session goes on after a message.
#[derive(Clone, Copy, PartialEq, Eq)]
pub enum Turn {
    /// It takes the next one.
    GoesOn,
    /// It ends with this status.
    Ends(u8),
    /// The sink failed.
    SinkFailed,
}

/// Takes a message, does the job that it starts, with the reads of the headers that it needs, and writes the replies.
pub fn take_message<K: Sink, H: HeaderSource>(
    alloc: Global,
    core: &mut Core,
    sink: &mut K,
    headers: &mut H,
    parsed: Parsed,
) -> Mem<Turn>
    ensures turn { Making (H.reads headers.old) (H.reads headers.new) (H.faults headers.old) (H.faults headers.new) (reads_taken core.old)
        (λ given made. (held : List ℕ) → slice_get given.messages (messages_taken core.old) ≡ Some parsed
        → Keeps given core.old held → K.held sink.old ≡ Some held → Turns given core.old parsed core.new made (K.held sink.new) result) }
    ensures idle { IsIdle core.old → LeavesIdle core.new result }
    ensures cause { HasCause (K.faults sink.old) (K.faults sink.new) (result ≡ Ok Turn.SinkFailed) }
{
    let effects = match core.step(alloc, Event::Message(parsed)) {
        Ok(effects) => effects,
        Err(Memory) => return Err(Memory),
    };
    match write_replies(alloc, sink, effects.as_slice()) {
        Ok(true) => {}
        Ok(false) => return Ok(Turn::SinkFailed),
        Err(Memory) => return Err(Memory),
    }
    match job_of(alloc, effects.as_slice()) {
        Ok(Some(job)) => do_job(alloc, core, sink, headers, job),
        Ok(None) => Ok(turn_of(finish_of(effects.as_slice()))),
        Err(Memory) => Err(Memory),
    }
}

/// How a session goes on that ends with this status, if it ends.
fn turn_of(status: Option<u8>) -> Turn
    ensures { result ≡ turn_of status }
{
    match status {
        Some(status) => Turn::Ends(status),
        None => Turn::GoesOn,
    }
}

/// Does a job, and writes its reply.
fn do_job<K: Sink, H: HeaderSource>(
    alloc: Global,
    core: &mut Core,
    sink: &mut K,
    headers: &mut H,
    job: Job,
) -> Mem<Turn>
    ensures turn { Making (H.reads headers.old) (H.reads headers.new) (H.faults headers.old) (H.faults headers.new) (reads_taken core.old)
        (λ given made. (held : List ℕ) → Works given core.old job held → K.held sink.old ≡ Some held
        → EndsWork given core.old core.new made (K.held sink.new) result) }
    ensures idle { WorksOn core.old job → LeavesIdle core.new result }
    ensures cause { HasCause (K.faults sink.old) (K.faults sink.new) (result ≡ Ok Turn.SinkFailed) }
{
    let event = match work(alloc, core, headers, job) {
        Ok(event) => event,
        Err(Memory) => return Err(Memory),
    };
    let effects = match core.step(alloc, event) {
        Ok(effects) => effects,
        Err(Memory) => return Err(Memory),
    };
    match write_replies(alloc, sink, effects.as_slice()) {
        Ok(true) => Ok(Turn::GoesOn),
        Ok(false) => Ok(Turn::SinkFailed),
        Err(Memory) => Err(Memory),
    }
}

/// Writes the frames of the replies among the effects, in order. False where the sink failed.
fn write_replies<K: Sink>(alloc: Global, sink: &mut K, effects: &[Effect]) -> Mem<bool>
    ensures whole { IfOk result (λ whole. IsTrue whole → K.held sink.new ≡ append_known (K.held sink.old) (frames_of effects.now)) }
    ensures part { (front : List ℕ) × (rest : List ℕ) × (frames_of effects.now ≡ front ++ rest) × (K.held sink.new ≡ append_known (K.held sink.old) front) }
    ensures cause { HasCause (K.faults sink.old) (K.faults sink.new) (result ≡ Ok false) }
{
    for effect in effects {
        if !write_reply(alloc, sink, effect)? {
            return Ok(false);
        }
    }
    Ok(true)
}

/// Writes the frame of the reply, if the effect is one. False where the sink failed.
fn write_reply<K: Sink>(alloc: Global, sink: &mut K, effect: &Effect) -> Mem<bool>
    ensures whole { IfOk result (λ whole. IsTrue whole → K.held sink.new ≡ append_known (K.held sink.old) (frame_of effect.now)) }
    ensures part { (n : ℕ) × (K.held sink.new ≡ append_known (K.held sink.old) (take n (frame_of effect.now))) }
    ensures cause { HasCause (K.faults sink.old) (K.faults sink.new) (result ≡ Ok false) }
{
    match effect {
        Effect::Reply(reply) => {
            let frame = reply_text(alloc, reply)?;
            match write_frame(sink, &frame) {
                Written::All => Ok(true),
                Written::Failed { .. } => Ok(false),
            }
        }
        Effect::StartJob(_) => Ok(true),
        Effect::Load(_) => Ok(true),
        Effect::Finish(_) => Ok(true),
    }
}

/// The first job that the effects start.
pub fn job_of(alloc: Global, effects: &[Effect]) -> Mem<Option<Job>>
    ensures { IfOk result (λ job. job ≡ first_of (jobs_of effects.now)) }
{
    for effect in effects {
        if let Effect::StartJob(job) = effect {
            let job = job.duplicate(alloc)?;
            return Ok(Some(job));
        }
    }
    Ok(None)
}

/// The status with which the effects end the session, if they do.
pub fn finish_of(effects: &[Effect]) -> Option<u8>
    ensures { result ≡ finish_of effects.now }
{
    for effect in effects {
        if let Effect::Finish(status) = effect {
            return Some(*status);
        }
    }
    None
}
