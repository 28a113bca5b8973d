//! The replies that come directly after a message.

ghost use Rattle.std.specs.Prelude.{◌≡◌, ◌+◌, ◌<◌, ◌^◌, [], ◌∷◌, Some, IfOk, map, length};
ghost use Rattle.cl_rpc.specs.Classes.{class_behind};
ghost use Rattle.cl_history.specs.Refusals.{id_of};
ghost use Rattle.cl_history.specs.Legal.{how_ended};
ghost use Rattle.cl_core.specs.Deciding.{code_of, core_refusal, reply_by, ended, ends_by, meant_by, replies_of, replies_if_accepted};
ghost use Rattle.cl_core.specs.Decisions.{IsEnding, end_behind};

use crate::core_state::State;
use crate::event::Effect;
use crate::waiting::Waiting;
use cl_base::{Duplicate, List, Mem};
use cl_pending::Which;
use cl_rpc::{Class, How, Id, Out, Reply};
use std::alloc::Global;

/// The replies that come directly after a message of this refusal, in order, where it ends these requests.
pub fn replies_of(
    alloc: Global,
    core: &State,
    class: Class<'_>,
    refusal: Option<i32>,
    ends: Option<Which<'_>>,
) -> Mem<List<Effect>>
    requires refused { refusal ≡ core_refusal core.now (class_behind class) }
    requires ended { end_behind ends ≡ ends_by core.now (class_behind class) }
    requires told { IsEnding ends }
    ensures { IfOk result (λ effects. effects ≡ map Effect.Reply (replies_of core.now (class_behind class.entry))) }
{
    let mark = core.journal.len() as u64 + 1;
    match refusal {
        Some(code) => {
            let id = id_of(alloc, class)?;
            one(
                alloc,
                Reply {
                    message: core.messages,
                    mark,
                    how: How::Refused,
                    id,
                    out: Out::Error(code),
                },
            )
        }
        None => {
            let effects = accepted(alloc, core, class, mark, ends)?;
            Ok(effects)
        }
    }
}

/// The replies that come directly after a message that isn't refused.
fn accepted(
    alloc: Global,
    core: &State,
    class: Class<'_>,
    mark: u64,
    ends: Option<Which<'_>>,
) -> Mem<List<Effect>>
    requires mark { mark < 2 ^ 33 }
    requires ended { end_behind ends ≡ ends_by core.now (class_behind class) }
    requires told { IsEnding ends }
    ensures { IfOk result (λ effects. effects ≡ map Effect.Reply (replies_if_accepted core.now mark (class_behind class.entry))) }
{
    match class {
        Class::Initialises(id) => answered(alloc, core.messages, mark, id, Out::Capabilities),
        Class::ShutsDown(id) => answered(alloc, core.messages, mark, id, Out::Null),
        _ => {
            let effects = ended(alloc, core, mark, how_ended(class), ends)?;
            Ok(effects)
        }
    }
}

/// A list of this answer alone.
fn answered(alloc: Global, message: u64, mark: u64, id: &Id, out: Out) -> Mem<List<Effect>>
    ensures { IfOk result (λ effects. effects ≡ Effect.Reply (reply_by message mark How.Answered (Some id.now) out) ∷ []) }
{
    let id = id.duplicate(alloc)?;
    one(
        alloc,
        Reply {
            message,
            mark,
            how: How::Answered,
            id: Some(id),
            out,
        },
    )
}

/// The replies to the requests that are ended, from this mark on.
fn ended(
    alloc: Global,
    core: &State,
    mark: u64,
    how: How,
    ends: Option<Which<'_>>,
) -> Mem<List<Effect>>
    requires mark { mark < 2 ^ 33 }
    requires told { IsEnding ends }
    ensures { IfOk result (λ effects. effects ≡ map Effect.Reply (ended mark how (meant_by (end_behind ends.entry) core.now.pending))) }
{
    let Some(which) = ends else {
        return Ok(List::new(alloc));
    };
    let found = core.pending.meant(alloc, &which)?;
    let effects = ended_by(alloc, found.as_slice(), mark, how)?;
    Ok(effects)
}

/// The replies that end these requests, from this mark on.
fn ended_by(alloc: Global, those: &[&Waiting], mark: u64, how: How) -> Mem<List<Effect>>
    requires { mark < 2 ^ 33 }
    ensures { IfOk result (λ effects. effects ≡ map Effect.Reply (ended mark how (map (λ waiting. waiting.now) those.now))) }
{
    let mut effects = List::new(alloc);
    for waiting in those {
        let mark = mark + effects.len() as u64;
        let reply = end_reply(alloc, waiting, mark, how)?;
        effects.push(Effect::Reply(reply))?;
    }
    Ok(effects)
}

/// The reply that ends a request without an answer.
fn end_reply(alloc: Global, waiting: &Waiting, mark: u64, how: How) -> Mem<Reply>
    ensures { IfOk result (λ reply. ended mark how (waiting.now ∷ []) ≡ reply ∷ []) }
{
    let id = waiting.id.duplicate(alloc)?;
    Ok(Reply {
        message: waiting.job.message,
        mark,
        how,
        id: Some(id),
        out: Out::Error(code_of(how)),
    })
}

/// How a message ends the requests that it ends.
fn how_ended(class: Class<'_>) -> How
    ensures { result ≡ how_ended (class_behind class.entry) }
{
    match class {
        Class::Cancels(_) => How::Cancelled,
        _ => How::Modified,
    }
}

/// The code of a reply that ends a request without an answer.
fn code_of(how: How) -> i32
    ensures { result ≡ code_of how }
{
    match how {
        How::Cancelled => -32800,
        How::Modified => -32801,
        _ => -32803,
    }
}

/// The id under which a message is replied to.
fn id_of(alloc: Global, class: Class<'_>) -> Mem<Option<Id>>
    ensures { IfOk result (λ id. id ≡ id_of (class_behind class.entry)) }
{
    let id = match class {
        Class::Initialises(id)
        | Class::ShutsDown(id)
        | Class::Queries(id, _, _)
        | Class::Unknown(id)
        | Class::BadParams(id, _) => Some(id),
        Class::Invalid(id, _) => id,
        _ => None,
    };
    match id {
        Some(id) => {
            let id = id.duplicate(alloc)?;
            Ok(Some(id))
        }
        None => Ok(None),
    }
}

/// A list of this reply alone.
pub fn one(alloc: Global, reply: Reply) -> Mem<List<Effect>>
    ensures { IfOk result (λ effects. effects ≡ Effect.Reply reply ∷ []) }
{
    let mut effects = List::new(alloc);
    effects.push(Effect::Reply(reply))?;
    Ok(effects)
}
