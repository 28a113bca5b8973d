//! Applies a decision.

ghost use Rattle.std.specs.Prelude.{◌≡◌, ◌⊎◌, ◌<◌, ◌+◌, ◌∷◌, [], ◌++◌, false, None, IfOk, OnOk, OnErr, IfSome, length};
ghost use Rattle.std.specs.List.{list_any, AllByRecursion};
ghost use Rattle.cl_core.specs.declared.waiting.Waiting.{Waiting};
ghost use Rattle.cl_core.specs.Waiting.{has_id};
ghost use Rattle.cl_core.specs.Deciding.{others_than};
ghost use Rattle.cl_core.specs.Decisions.{Applies, Edits, IsEnding, end_behind, started_in};
ghost use Rattle.cl_core.specs.Steps.{start_jobs};
ghost use Rattle.cl_pending.specs.Meant.{is_nil};

use crate::core_state::State;
use crate::decision::{Decision, Work};
use crate::event::Effect;
use crate::note::{entries_of, finishes, with_finish};
use crate::waiting::Waiting;
use cl_base::{Duplicate, List, Mem, Memory};
use cl_pending::{Pending, Which};
use cl_store::Docs;
use std::alloc::Global;

/// Applies what was decided of a message, and tells the effects in order, or changes nothing.
pub fn apply(alloc: Global, core: &mut State, decision: Decision<'_>) -> Mem<List<Effect>>
    requires free { AllByRecursion (λ (waiting : Waiting). list_any (has_id waiting.id) core.old.pending ≡ false) (started_in decision.work) }
    requires above { AllByRecursion (λ (waiting : Waiting). AllByRecursion (λ (other : Waiting). other.job.message < waiting.job.message) core.old.pending) (started_in decision.work) }
    requires apart { (started_in decision.work ≡ []) ⊎ (end_behind decision.ends ≡ None) }
    requires ending { IsEnding decision.ends }
    ensures ok { IfOk result (λ effects. Applies core.old decision.entry core.new effects) }
    ensures err { OnErr result (core.new ≡ core.old) }
{
    let Decision {
        replies,
        ends,
        work,
        initialised,
        shut_down,
        ending,
        headers,
    } = decision;
    let none_left = none_left(&core.pending, ends, &work);
    let entries = entries_of(alloc, core.messages, replies.as_slice())?;
    let effects = with_job(alloc, replies, &work)?;
    let effects = with_finish(effects, ending, none_left)?;
    let Some(messages) = core.messages.checked_add(1) else {
        return Err(Memory);
    };
    let Some(jobs) = jobs_after(core.jobs, &work) else {
        return Err(Memory);
    };
    let length = core.journal.len();
    core.journal.extend(entries.as_slice())?;
    if begin(alloc, &mut core.docs, &mut core.pending, work).is_err() {
        core.journal.truncate(length);
        return Err(Memory);
    }
    release(&mut core.pending, ends);
    core.initialised = initialised;
    core.shut_down = shut_down;
    core.headers = headers;
    core.messages = messages;
    core.jobs = jobs;
    core.ending = ending;
    core.finished = finishes(ending, none_left);
    Ok(effects)
}

/// Whether no request waits where these are ended and this work is begun.
fn none_left(pending: &Pending<Waiting>, ends: Option<Which<'_>>, work: &Work<'_>) -> bool
    requires apart { (started_in work.now ≡ []) ⊎ (end_behind ends ≡ None) }
    requires ending { IsEnding ends }
    ensures { result ≡ is_nil (others_than (end_behind ends.entry) pending.now ++ started_in work.now) }
{
    if let Work::Starts(_) = work {
        return false;
    }
    match ends {
        Some(which) => pending.all_meant(&which),
        None => pending.is_empty(),
    }
}

/// The effects, and the start of the job of the request that starts to wait.
fn with_job(alloc: Global, effects: List<Effect>, work: &Work<'_>) -> Mem<List<Effect>>
    ensures { IfOk result (λ all. all ≡ effects ++ start_jobs (started_in work.now)) }
{
    let mut effects = effects;
    if let Work::Starts(waiting) = work {
        effects.push(Effect::StartJob(waiting.job.duplicate(alloc)?))?;
    }
    Ok(effects)
}

/// How many jobs were started after this work. `None` comes only past the most that can be told.
fn jobs_after(jobs: u64, work: &Work<'_>) -> Option<u64>
    ensures { IfSome result (λ after. after ≡ jobs + length (started_in work.now)) }
{
    match work {
        Work::Starts(_) => jobs.checked_add(1),
        _ => Some(jobs),
    }
}

/// Begins the work of a message, or changes nothing.
fn begin(alloc: Global, docs: &mut Docs, pending: &mut Pending<Waiting>, work: Work<'_>) -> Mem<()>
    requires free { AllByRecursion (λ (waiting : Waiting). list_any (has_id waiting.id) pending.old ≡ false) (started_in work) }
    requires above { AllByRecursion (λ (waiting : Waiting). AllByRecursion (λ (other : Waiting). other.job.message < waiting.job.message) pending.old) (started_in work) }
    ensures docs { OnOk result (Edits docs.old work.entry docs.new) }
    ensures pending { OnOk result (pending.new ≡ pending.old ++ started_in work.entry) }
    ensures err { OnErr result (docs.new ≡ docs.old) }
    ensures err_pending { OnErr result (pending.new ≡ pending.old) }
{
    match work {
        Work::Nothing => Ok(()),
        Work::Puts(path, version, text) => {
            let path = path.duplicate(alloc)?;
            let text = text.duplicate(alloc)?;
            docs.open(path, version, text)?;
            Ok(())
        }
        Work::Closes(path) => {
            docs.close(path);
            Ok(())
        }
        Work::Starts(waiting) => {
            pending.push(alloc, waiting)?;
            Ok(())
        }
    }
}

/// Lets the requests go that are ended.
fn release(pending: &mut Pending<Waiting>, ends: Option<Which<'_>>)
    requires { IsEnding ends }
    ensures { pending.new ≡ others_than (end_behind ends.entry) pending.old }
{
    if let Some(which) = ends {
        pending.release(&which);
    }
}
