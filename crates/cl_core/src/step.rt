ghost use Rattle.std.specs.Prelude.{◌≡◌, ◌⊎◌, ◌&&◌, not, true, Some, IfOk, OnErr, IsSome, None};
ghost use Rattle.cl_rpc.specs.Classes.{class_of};
ghost use Rattle.cl_core.specs.Numbered.{IsNumbered};
ghost use Rattle.cl_core.specs.Steps.{Steps, StepsOn, Takes, hears, is_awaited};

use crate::apply::apply;
use crate::core_state::{Core, State};
use crate::decide::decide;
use crate::ending::end;
use crate::event::{Effect, Event};
use crate::job_end::complete;
use crate::need::{loaded, need};
use cl_base::{List, Mem};
use cl_query::Done;
use cl_rpc::{How, Out, Parsed};
use std::alloc::Global;

impl Core {
    ghost use Rattle.std.specs.Prelude.{◌≡◌, List, IfOk, OnErr};
    ghost use Rattle.cl_history.specs.Given.{Given};
    ghost use Rattle.cl_history.specs.Legal.{IsSettled};
    ghost use Rattle.cl_core.specs.Steps.{Steps};
    ghost use Rattle.cl_core.specs.Standing.{IsNext, IsReady, StandsFor, Turns, WritesOn, past_of};

    /// Takes an event, and tells what is to be done, in order. After the end of the session every event gives the
    /// empty list, and so does every event but its `Loaded` after the effect `Load`, and a `Loaded` that no such effect
    /// came before. After want of memory the session is as before.
    pub fn step(&mut self, alloc: Global, event: Event) -> Mem<List<Effect>>
        ensures ok { IfOk result (λ effects. Steps self.old event self.new effects) }
        ensures err { OnErr result (self.new ≡ self.old) }
        ensures stands { IfOk result (λ effects. (given : Given) → IsNext given self.old event → StandsFor given self.old → StandsFor given self.new) }
        ensures writes { IfOk result (λ effects. (given : Given) → IsNext given self.old event → StandsFor given self.old → WritesOn given self.old self.new effects) }
        ensures turns { IfOk result (λ effects. Turns self.old event self.new effects) }
        ensures settles { IfOk result (λ effects. (given : Given) → StandsFor given self.old → IsReady self.old event → IsSettled given (past_of self.old) → IsSettled given (past_of self.new)) }
    {
        let effects = advance(alloc, &mut self.state, event)?;
        Ok(effects)
    }
}

/// Takes an event, if the session hears it.
fn advance(alloc: Global, core: &mut State, event: Event) -> Mem<List<Effect>>
    requires numbered { IsNumbered core.old }
    ensures ok { IfOk result (λ effects. Steps core.old event core.new effects) }
    ensures err { OnErr result (core.new ≡ core.old) }
{
    if !hears(core, &event) {
        return Ok(List::new(alloc));
    }
    match event {
        Event::Message(parsed) => take(alloc, core, &parsed),
        Event::Loaded(path, read) => match core.awaited.as_ref() {
            Some(awaited) => {
                let message = awaited.message;
                loaded(alloc, core, message, &path, read)
            }
            None => Ok(List::new(alloc)),
        },
        Event::Done(done) => {
            let Done { job, answer, seen } = done;
            let mark = job.mark;
            let out = Out::Answer(answer);
            complete(alloc, core, &job, seen.as_slice(), mark, How::Answered, out)
        }
        Event::Need(job) => need(alloc, core, job),
        Event::NoMemory(job) => {
            let mark = core.journal.len() as u64;
            complete(
                alloc,
                core,
                &job,
                &[],
                mark,
                How::Memory,
                Out::Error(-32803),
            )
        }
        Event::End(ending) => end(alloc, core, ending),
    }
}

/// Whether a session hears an event: it isn't over, and the event is the read that it awaits, or it awaits none and
/// the event is no read.
fn hears(core: &State, event: &Event) -> bool
    ensures { result ≡ hears core.now event.now }
{
    if core.finished {
        return false;
    }
    match (&core.awaited, event) {
        (Some(awaited), Event::Loaded(path, _)) => awaited.path == *path,
        (Some(_), _) => false,
        (None, Event::Loaded(_, _)) => false,
        (None, _) => true,
    }
}

/// Takes a message: decides what it leads to, and applies it.
fn take(alloc: Global, core: &mut State, parsed: &Parsed) -> Mem<List<Effect>>
    requires numbered { IsNumbered core.old }
    requires none_awaited { core.old.awaited ≡ None }
    ensures ok { IfOk result (λ effects. Takes core.old (class_of parsed.now) core.new effects) }
    ensures err { OnErr result (core.new ≡ core.old) }
{
    let decision = decide(alloc, core, parsed.class())?;
    let effects = apply(alloc, core, decision)?;
    Ok(effects)
}
