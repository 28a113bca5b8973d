//! Jobs that need headers, and reads of headers.

ghost use Rattle.std.specs.Prelude.{◌≡◌, ◌⊎◌, ◌∷◌, [], ◌++◌, ◌+◌, Some, IfOk, OnErr, Contains, length};
ghost use Rattle.cl_core.specs.declared.waiting.Waiting.{Waiting};
ghost use Rattle.cl_core.specs.Steps.{IsLost, Lacks, Loads, StartsAgain};

use crate::core_state::{Awaited, State};
use crate::event::Effect;
use crate::headers::with_read;
use crate::jobs::{begin_again, job_again, waiting_for};
use cl_base::{Duplicate, List, Mem, Memory, Path, Read};
use cl_history::Entry;
use cl_query::{Job, Need};
use std::alloc::Global;

/// Takes the need of a job: its header is to be read, where it is unknown still, and else the job starts again. Where no
/// job is out that it was work on, it has no effect.
pub fn need(alloc: Global, core: &mut State, need: Need) -> Mem<List<Effect>>
    ensures ok { IfOk result (λ effects. Lacks core.old need.job need.seen need.path core.new effects) }
    ensures err { OnErr result (core.new ≡ core.old) }
{
    let Need { job, path, seen } = need;
    if waiting_for(&core.pending, &job, seen.as_slice()).is_none() {
        return Ok(List::new(alloc));
    }
    match core.headers.get(&path) {
        Some(_) => {
            let effects = start_again(alloc, core, job)?;
            Ok(effects)
        }
        None => {
            let effects = await_read(alloc, core, job.message, path)?;
            Ok(effects)
        }
    }
}

/// Starts a job again over what is known now.
fn start_again(alloc: Global, core: &mut State, job: Job) -> Mem<List<Effect>>
    ensures ok { IfOk result (λ effects. StartsAgain core.old job core.new effects) }
    ensures err { OnErr result (core.new ≡ core.old) }
{
    let Some(jobs) = core.jobs.checked_add(1) else {
        return Err(Memory);
    };
    let mark = core.journal.len() as u64;
    let message = job.message;
    let headers = core.headers.duplicate(alloc)?;
    let job = job_again(job, core.jobs, mark, headers.duplicate(alloc)?);
    let effects = start_of(alloc, job)?;
    begin_again(alloc, &mut core.pending, message, core.jobs, mark, &headers)?;
    core.jobs = jobs;
    Ok(effects)
}

/// Has a header read that is unknown.
fn await_read(alloc: Global, core: &mut State, message: u64, path: Path) -> Mem<List<Effect>>
    ensures effects { IfOk result (λ effects. effects ≡ Effect.Load path ∷ []) }
    ensures ok { IfOk result (λ effects. core.new ≡ record core.old { awaited = Some (record { message = message; path = path }) }) }
    ensures err { OnErr result (core.new ≡ core.old) }
{
    let mut effects = List::new(alloc);
    effects.push(Effect::Load(path.duplicate(alloc)?))?;
    core.awaited = Some(Awaited { message, path });
    Ok(effects)
}

/// Takes a read that is awaited: the job that needs it starts again over what is known with it.
pub fn loaded(
    alloc: Global,
    core: &mut State,
    message: u64,
    path: &Path,
    read: Read,
) -> Mem<List<Effect>>
    ensures ok { IfOk result (λ effects. Loads core.old message path.now read core.new effects ⊎ IsLost core.old message core.new effects) }
    ensures err { OnErr result (core.new ≡ core.old) }
{
    let job = match core.pending.at(message) {
        Some(waiting) => waiting.job.duplicate(alloc)?,
        None => return Ok(List::new(alloc)),
    };
    let Some(jobs) = core.jobs.checked_add(1) else {
        return Err(Memory);
    };
    let Some(loads) = core.loads.checked_add(1) else {
        return Err(Memory);
    };
    let headers = core.headers.duplicate(alloc)?;
    let headers = with_read(alloc, headers, path, read)?;
    let mark = core.journal.len() as u64 + 1;
    let job = job_again(job, core.jobs, mark, headers.duplicate(alloc)?);
    let effects = start_of(alloc, job)?;
    let length = core.journal.len();
    core.journal.push(Entry::Load(core.loads))?;
    if begin_again(alloc, &mut core.pending, message, core.jobs, mark, &headers).is_err() {
        core.journal.truncate(length);
        return Err(Memory);
    }
    core.headers = headers;
    core.awaited = None;
    core.jobs = jobs;
    core.loads = loads;
    Ok(effects)
}

/// The start of a job alone.
fn start_of(alloc: Global, job: Job) -> Mem<List<Effect>>
    ensures { IfOk result (λ effects. effects ≡ Effect.StartJob job ∷ []) }
{
    let mut effects = List::new(alloc);
    effects.push(Effect::StartJob(job))?;
    Ok(effects)
}
