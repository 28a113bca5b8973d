ghost use Rattle.std.specs.Prelude.{◌≡◌, ◌∷◌, [], ◌++◌, IfOk, ◌&&◌, is_some};
ghost use Rattle.cl_core.specs.Steps.{entries_of, finish_if, finishes};
ghost use Rattle.cl_pending.specs.Meant.{is_nil};
ghost use Rattle.cl_core.specs.declared.waiting.Waiting.{Waiting};

use crate::event::Effect;
use cl_base::{List, Mem};
use cl_history::Entry;
use std::alloc::Global;

/// The entries of a message and its replies.
pub fn entries_of(alloc: Global, message: u64, effects: &[Effect]) -> Mem<Vec<Entry>>
    ensures { IfOk result (λ entries. entries.items ≡ Entry.In message ∷ entries_of effects.now) }
{
    let mut entries = Vec::new(alloc);
    entries.push(Entry::In(message))?;
    for effect in effects {
        if let Effect::Reply(reply) = effect {
            entries.push(Entry::Reply {
                message: reply.message,
                mark: reply.mark,
                how: reply.how,
            })?;
        }
    }
    Ok(entries)
}

/// The effects, and the end of the session where its status is known and no request is left.
pub fn with_finish(effects: List<Effect>, ending: Option<u8>, none_left: bool) -> Mem<List<Effect>>
    ensures { IfOk result (λ all. all ≡ effects ++ finish_if ending none_left) }
{
    let mut effects = effects;
    if let Some(status) = ending {
        if none_left {
            effects.push(Effect::Finish(status))?;
        }
    }
    Ok(effects)
}

/// Whether the session ends: its status is known, and no request is left.
pub fn finishes(ending: Option<u8>, none_left: bool) -> bool
    ensures { result ≡ (is_some ending && none_left) }
{
    ending.is_some() && none_left
}
