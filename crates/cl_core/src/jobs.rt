//! The jobs of the requests that wait.

ghost use Rattle.std.specs.Prelude.{◌≡◌, OnOk, OnErr, IfOk, IfSome, IsNone, Contains};
ghost use Rattle.cl_query.specs.Over.{IsOver};
ghost use Rattle.cl_core.specs.declared.waiting.Waiting.{Waiting};
ghost use Rattle.cl_core.specs.Steps.{again, begun_again};

use crate::waiting::Waiting;
use cl_base::{Duplicate, Mem};
use cl_headers::{Dep, HeaderMap};
use cl_pending::Pending;
use cl_query::Job;
use std::alloc::Global;

/// The request whose job the work on this one, which saw this of headers, was work on.
pub fn waiting_for<'a>(
    pending: &'a Pending<Waiting>,
    job: &Job,
    seen: &[Dep],
) -> Option<&'a Waiting>
    ensures found { IfSome result (λ waiting. IsOver job.now seen.now waiting.now.job × Contains pending.now waiting.now) }
    ensures out { IsNone result → (waiting : Waiting) → Contains pending.now waiting → IsOver job.now seen.now waiting.job → ⊥ }
{
    match pending.at(job.message) {
        Some(waiting) => match job.is_over(seen, &waiting.job) {
            true => Some(waiting),
            false => None,
        },
        None => None,
    }
}

/// Begins the job of the request that this message made again, with this number and mark and over these headers, or
/// changes nothing.
#[tactic(auto, using(crate::proofs::Numbers::keys_for, crate::proofs::Numbers::begun_so, crate::proofs::Numbers::none_again))]
pub fn begin_again(
    alloc: Global,
    pending: &mut Pending<Waiting>,
    message: u64,
    number: u64,
    mark: u64,
    headers: &HeaderMap,
) -> Mem<()>
    ensures ok { OnOk result (pending.new ≡ begun_again message number mark headers.now pending.old) }
    ensures err { OnErr result (pending.new ≡ pending.old) }
{
    let Some(waiting) = pending.at(message) else {
        return Ok(());
    };
    let again = begun(alloc, waiting, number, mark, headers)?;
    pending.replace(again)
}

/// The request with its job begun again.
fn begun(
    alloc: Global,
    waiting: &Waiting,
    number: u64,
    mark: u64,
    headers: &HeaderMap,
) -> Mem<Waiting>
    ensures { IfOk result (λ after. after ≡ record waiting.now { job = again number mark headers.now waiting.now.job }) }
{
    let id = waiting.id.duplicate(alloc)?;
    let job = waiting.job.duplicate(alloc)?;
    let headers = headers.duplicate(alloc)?;
    let job = job_again(job, number, mark, headers);
    Ok(Waiting { id, job })
}

/// The job with another number, mark and snapshot.
pub fn job_again(job: Job, number: u64, mark: u64, headers: HeaderMap) -> Job
    ensures { result ≡ again number mark headers job }
{
    let Job {
        number: _,
        message,
        mark: _,
        path,
        version,
        text,
        config,
        headers: _,
        kind,
    } = job;
    Job {
        number,
        message,
        mark,
        path,
        version,
        text,
        config,
        headers,
        kind,
    }
}
