//! Work that is kept where a job needs a header.

ghost use Rattle.std.specs.Prelude.{◌≡◌, None, IfOk};
ghost use Rattle.cl_headers.specs.Resolving.{known_of};
ghost use Rattle.cl_pp.specs.Resuming.{Agree, IsWork};
ghost use Rattle.cl_query.specs.Keeping.{IsBegun, IsKept};

use crate::job::Job;
use crate::seen::agrees;
use cl_base::{Duplicate, Mem};
use cl_pp::{PpState, PpWork};
use std::alloc::Global;

/// A job that needs a header, and the work that waits for it.
#[derive(Drop)]
pub struct Paused {
    pub(crate) job: Job,
    pub(crate) work: PpWork,
}

/// The work on a job that needs a header, if it is kept, so that it goes on where the job starts again with more known of
/// headers, and isn't done again.
#[derive(Drop)]
pub struct Kept {
    pub(crate) paused: Option<Paused>,
}

impl Kept {
    /// No work.
    pub fn new() -> Kept
        ensures { IsKept result }
    {
        Kept { paused: None }
    }

    /// Keeps the work on a job, in place of what was kept.
    pub(crate) fn keep(&mut self, alloc: Global, job: &Job, work: PpWork) -> Mem<()>
        requires sound { IsWork work }
        requires begun { IsBegun job.now work }
        requires kept { IsKept self.now }
        ensures { IsKept self.new }
    {
        let job = job.duplicate(alloc)?;
        self.paused = Some(Paused { job, work });
        Ok(())
    }
}

/// The work on a job: what is kept, if that is work on the same question, and the job's headers say what it saw of headers,
/// and else work that begins.
/// Nothing is kept then.
pub(crate) fn work_on(alloc: Global, job: &Job, kept: &mut Kept) -> Mem<PpWork>
    requires { IsKept kept.now }
    ensures sound { IfOk result IsWork }
    ensures begun { IfOk result (IsBegun job.now) }
    ensures agrees { IfOk result (λ work. Agree (known_of job.now.headers) work.made.done.deps) }
    ensures kept { kept.new.paused ≡ None }
{
    if let Some(paused) = kept.paused.take() {
        let Paused { job: worked, work } = paused;
        if worked.is_same_question(job) && agrees(&job.headers, work.asked()) {
            return Ok(work);
        }
    }
    let start = PpState::start(alloc, &job.config)?;
    let work = PpWork::new(alloc, start, &job.path, &job.text)?;
    Ok(work)
}
