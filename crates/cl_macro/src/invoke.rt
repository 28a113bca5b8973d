//! An invocation from its name to what it is replaced by.

ghost use Rattle.std.specs.Prelude.{◌≡◌, ◌-◌, ◌+◌, ◌<◌, ◌≤◌, ◌++◌, ℕ, List, Option, length, take, IfOk, OnOk};
ghost use Rattle.cl_macro.specs.Levels.{ahead, rest_of, Suits, Takes};
ghost use Rattle.cl_base.specs.Lent.{lent_value};
ghost use Rattle.cl_macro.specs.Rules.{Rules};
ghost use Rattle.cl_macro.specs.Walks.{notes_of};
ghost use Rattle.cl_macro.specs.Turns.{invoking};
ghost use Rattle.cl_macro.specs.Frames.{Proceeds, Replaced, Short, begun_at, frame_of, frames, waits};

use crate::args::{args_of, note_invocation, set_of};
use crate::body::Args;
use crate::level::Level;
use crate::made::{lay, whole_body};
use crate::needed::{asked, raws};
use crate::note::Note;
use crate::pending::Pending;
use crate::place::Place;
use crate::walk::Invoked;
use crate::work::Work;
use cl_base::{List, Mem};
use std::alloc::Global;

/// Takes the tokens of an invocation.
pub(crate) fn invoke<'a>(
    alloc: Global,
    level: Level<'a>,
    notes: &mut List<Note>,
    found: Invoked<'a>,
) -> Mem<Pending<'a>>
    requires within { found.count ≤ length (ahead level) }
    requires takes { Takes (lent_value found.mac).params found.count }
    ensures frame { IfOk result (λ p. frame_of p ≡ begun_at found.entry level.entry) }
    ensures notes { OnOk result (notes.new ≡ notes.old ++ invoking found.entry.word (take found.entry.count (ahead level.entry))) }
{
    let mut level = level;
    note_invocation(alloc, notes, &level, &found.word, found.count)?;
    let set = set_of(alloc, &level, &found.word, found.count)?;
    let args = args_of(alloc, &mut level, found.mac.get(), found.count)?;
    level.work.shrink();
    let raw = raws(alloc, found.mac.get(), &args)?;
    let waiting = asked(alloc, found.mac.get(), args)?;
    Ok(Pending {
        mac: found.mac,
        space: found.word.token.space,
        set,
        args: raw,
        done: List::new(alloc),
        waiting,
        level,
    })
}

/// Goes on with the next argument of an invocation, or with what replaces it.
pub(crate) fn proceed<'a>(
    alloc: Global,
    place: &Place,
    calls: &mut List<Pending<'a>>,
    notes: &mut List<Note>,
    pending: Pending<'a>,
) -> Mem<Level<'a>>
    ensures fewer { OnOk result (waits calls.new ≤ waits calls.old + length pending.entry.waiting) }
    ensures short { (n : ℕ) → Short n (frames calls.old) → length (rest_of pending.entry.level) ≤ n → IfOk result (λ level. Short n (frames calls.new) × (length (rest_of level) ≤ n)) }
    ensures proceeds { (rules : Rules) → Suits rules place.now → IfOk result (λ level. Proceeds rules (frames calls.old) (frame_of pending.entry) notes.old (frames calls.new) level notes.new) }
{
    let mut pending = pending;
    let Some(arg) = pending.waiting.pop() else {
        let level = replaced(alloc, place, notes, pending)?;
        return Ok(level);
    };
    let work = Work::of(alloc, arg);
    let (rest, _) = pending.level.rest.split_at(0);
    calls.push(pending)?;
    Ok(Level {
        work,
        rest,
        out: List::new(alloc),
    })
}

/// What an invocation stands in, with what replaces it.
fn replaced<'a>(
    alloc: Global,
    place: &Place,
    notes: &mut List<Note>,
    pending: Pending<'a>,
) -> Mem<Level<'a>>
    ensures words { (rules : Rules) → Suits rules place.now → IfOk result (λ level. Replaced rules (frame_of pending.entry) level) }
    ensures rest { IfOk result (λ level. rest_of level ≡ rest_of pending.entry.level) }
    ensures notes { (rules : Rules) → Suits rules place.now → OnOk result (notes.new ≡ notes.old ++ notes_of rules (frame_of pending.entry) pending.entry.done) }
{
    let args = Args {
        mac: pending.mac.get(),
        raw: &pending.args,
        full: &pending.done,
    };
    let words = whole_body(alloc, place, &args, notes)?;
    let mut level = pending.level;
    lay(alloc, words, pending.space, &pending.set, &mut level.work)?;
    Ok(level)
}
