ghost use Rattle.std.specs.Prelude.{◌≡◌, IfOk, OnErr};
ghost use Rattle.cl_core.specs.Steps.{Completes};

use crate::core_state::State;
use crate::event::Effect;
use crate::jobs::waiting_for;
use crate::note::{finishes, with_finish};
use crate::replies::one;
use cl_base::{Duplicate, List, Mem};
use cl_headers::Dep;
use cl_history::Entry;
use cl_pending::Which;
use cl_query::Job;
use cl_rpc::{How, Out, Reply};
use std::alloc::Global;

/// Takes the end of work on a job, which saw this of headers: the request is replied to whose job it was work on. Where
/// no such job is out, it has no effect.
pub fn complete(
    alloc: Global,
    core: &mut State,
    job: &Job,
    seen: &[Dep],
    mark: u64,
    how: How,
    out: Out,
) -> Mem<List<Effect>>
    ensures ok { IfOk result (λ effects. Completes core.old job.now seen.now mark how out core.new effects) }
    ensures err { OnErr result (core.new ≡ core.old) }
{
    let waiting = match waiting_for(&core.pending, job, seen) {
        Some(waiting) => waiting,
        None => return Ok(List::new(alloc)),
    };
    let id = waiting.id.duplicate(alloc)?;
    let message = job.message;
    let reply = Reply {
        message,
        mark,
        how,
        id: Some(id),
        out,
    };
    let none_left = core.pending.all_meant(&Which::Message(message));
    let finished = finishes(core.ending, none_left);
    let effects = one(alloc, reply)?;
    let all = with_finish(effects, core.ending, none_left)?;
    core.journal.push(Entry::Reply { message, mark, how })?;
    core.pending.remove(message);
    core.finished = finished;
    Ok(all)
}
