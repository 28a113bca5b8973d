//! Works jobs.

ghost use Rattle.cl_query.specs.Keeping.{IsKept};
ghost use Rattle.cl_query.specs.Worked.{IsAnswerTo};

use crate::answers::{Found, find};
use crate::done::{Done, JobAnswer, Need};
use crate::job::Job;
use crate::kept::Kept;
use cl_base::Memory;
use std::alloc::Global;

/// Works a job. It comes back as it is, with its answer, with the header that it needs, or without either where memory was
/// wanting.
pub fn run_job(alloc: Global, job: Job) -> JobAnswer
    ensures { IsAnswerTo job result }
{
    let mut kept = Kept::new();
    resume_job(alloc, job, &mut kept)
}

/// Works a job as `run_job` does, and keeps the work where a header is needed. Where the kept work is of a job that asked the
/// same of the same text, and this job's headers say of the headers that it asked for what was seen, it goes on from there.
pub fn resume_job(alloc: Global, job: Job, kept: &mut Kept) -> JobAnswer
    requires { IsKept kept.now }
    ensures answer { IsAnswerTo job result }
    ensures kept { IsKept kept.new }
{
    match find(alloc, &job, kept) {
        Ok(Found::Answer(answer, seen)) => JobAnswer::Done(Done { job, answer, seen }),
        Ok(Found::Need(path, seen)) => JobAnswer::Need(Need { job, path, seen }),
        Err(Memory) => JobAnswer::Memory(job),
    }
}
