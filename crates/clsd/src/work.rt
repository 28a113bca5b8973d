//! The work on a job, with the reads of the headers that it needs.

ghost use Rattle.std.specs.Prelude.{◌≡◌, ℕ, List, IfOk};
ghost use Rattle.cl_core.specs.Standing.{AwaitsRead, WorksOn, loads_of, reads_taken};
ghost use Rattle.clsd.specs.First.{first_of};
ghost use Rattle.clsd.specs.Serving.{Awaits, EndsJob, EndsWorked, LeavesWork, Making, Works};

use crate::turn::job_of;
use cl_base::{Duplicate, HeaderSource, Mem, Memory, Path};
use cl_core::{Core, Effect, Event};
use cl_query::{Job, JobAnswer, Kept, Need, resume_job};
use std::alloc::Global;

/// The most starts of a job, 2^32. Each start but the first comes after an entry of the journal, which has room for fewer.
const MOST_STARTS: u64 = 0x1_0000_0000;

/// Works on a job, which starts again after each read of a header that it needs, and goes on from the work that is kept.
/// The event is that of its end. For a job that starts more often than the journal has room for, memory is wanting.
pub fn work<H: HeaderSource>(
    alloc: Global,
    core: &mut Core,
    headers: &mut H,
    job: Job,
) -> Mem<Event>
    ensures reads { Making (H.reads headers.old) (H.reads headers.new) (H.faults headers.old) (H.faults headers.new) (reads_taken core.old)
        (λ given made. (held : List ℕ) → Works given core.old job held → LeavesWork (EndsWorked given core.new held) given core.old core.new made held result) }
    ensures works { WorksOn core.old job → IfOk result (EndsJob core.new) }
{
    let mut job = job;
    let mut kept = Kept::new();
    for count in 0..MOST_STARTS {
        let _ = count;
        match resume_job(alloc, job, &mut kept) {
            JobAnswer::Done(done) => return Ok(Event::Done(done)),
            JobAnswer::Memory(job) => return Ok(Event::NoMemory(job)),
            JobAnswer::Need(need) => match read_first(alloc, core, headers, need) {
                Ok(again) => job = again,
                Err(Memory) => return Err(Memory),
            },
        }
    }
    Err(Memory)
}

/// Takes the need of a job: its header is read, where it is unknown still. The job that starts again.
fn read_first<H: HeaderSource>(
    alloc: Global,
    core: &mut Core,
    headers: &mut H,
    need: Need,
) -> Mem<Job>
    ensures reads { Making (H.reads headers.old) (H.reads headers.new) (H.faults headers.old) (H.faults headers.new) (reads_taken core.old)
        (λ given made. (held : List ℕ) → Works given core.old need.job held → LeavesWork (λ job. Works given core.new job held) given core.old core.new made held result) }
    ensures works { WorksOn core.old need.job → IfOk result (WorksOn core.new) }
{
    let effects = match core.step(alloc, Event::Need(need)) {
        Ok(effects) => effects,
        Err(Memory) => return Err(Memory),
    };
    match job_of(alloc, effects.as_slice()) {
        Ok(Some(job)) => return Ok(job),
        Ok(None) => {}
        Err(Memory) => return Err(Memory),
    }
    match path_of(alloc, effects.as_slice()) {
        Ok(Some(path)) => load(alloc, core, headers, path),
        Ok(None) => Err(Memory),
        Err(Memory) => Err(Memory),
    }
}

/// Reads the header of a path. The job that starts again with it.
fn load<H: HeaderSource>(alloc: Global, core: &mut Core, headers: &mut H, path: Path) -> Mem<Job>
    ensures reads { Making (H.reads headers.old) (H.reads headers.new) (H.faults headers.old) (H.faults headers.new) (reads_taken core.old)
        (λ given made. (held : List ℕ) → Awaits given core.old path held → LeavesWork (λ job. Works given core.new job held) given core.old core.new made held result) }
    ensures works { AwaitsRead core.old path → IfOk result (WorksOn core.new) }
{
    let read = match headers.read_file(alloc, &path) {
        Ok(read) => read,
        Err(Memory) => return Err(Memory),
    };
    let effects = match core.step(alloc, Event::Loaded(path, read)) {
        Ok(effects) => effects,
        Err(Memory) => return Err(Memory),
    };
    match job_of(alloc, effects.as_slice()) {
        Ok(Some(job)) => Ok(job),
        Ok(None) => Err(Memory),
        Err(Memory) => Err(Memory),
    }
}

/// The path of the first header that the effects have read.
fn path_of(alloc: Global, effects: &[Effect]) -> Mem<Option<Path>>
    ensures { IfOk result (λ path. path ≡ first_of (loads_of effects.now)) }
{
    for effect in effects {
        if let Effect::Load(path) = effect {
            let path = path.duplicate(alloc)?;
            return Ok(Some(path));
        }
    }
    Ok(None)
}
