//! Tokens that many invocations share.

ghost use Rattle.std.specs.Prelude.{◌≡◌, ◌-◌, ◌+◌, ◌^◌, ◌<◌, ◌≤◌, ◌++◌, [], ◌∷◌, length, drop, map, reverse, slice_get, IfOk, IfSome};
ghost use Rattle.std.specs.Option.{option_copied, option_map};
ghost use Rattle.cl_macro.specs.Turns.{close_at};
ghost use Rattle.cl_macro.specs.Words.{fresh, taken};
ghost use Rattle.cl_macro.specs.code.Segments.{Linked, slot_word};

use crate::args::reversed;
use crate::hide::Hide;
use crate::word::{Word, is_mark};
use cl_base::{Duplicate, List, Mem, PpToken};
use std::alloc::Global;
use std::marker::Model;
use std::sync::Arc;

/// A token that an invocation has taken, and how many tokens from it on stand before the `)` that has no `(` among them, if
/// there is one.
#[derive(Drop)]
pub(crate) struct Slot {
    pub(crate) token: PpToken,
    pub(crate) hide: Hide,
    pub(crate) close: Option<usize>,
}

impl Slot {
    /// A copy of the token.
    pub(crate) fn word(&self, alloc: Global) -> Mem<Word>
        ensures { IfOk result (λ word. word ≡ slot_word self.now) }
    {
        let token = self.token.duplicate(alloc)?;
        let hide = self.hide.duplicate(alloc)?;
        Ok(Word {
            token,
            hide,
            given: false,
        })
    }
}

/// Tokens that invocations have taken. Copies share them, and none takes no memory.
#[derive(Drop)]
pub(crate) struct Segment {
    slots: Option<Arc<List<Slot>, Global>>,
}

impl Model for Segment {
    ghost use Rattle.std.specs.Prelude.{List, [], ⊤, None, Some, map};
    ghost use Rattle.cl_macro.specs.declared.word.Word.{Word as TheWord};
    ghost use Rattle.cl_macro.specs.code.Segments.{Linked, slot_word};

    ghost Value = { List TheWord };

    ghost view = { λ it. elim it.slots [ None ↦ [] | Some slots ↦ map slot_word slots.value ] };

    ghost invariant = { λ it. elim it.slots [ None ↦ ⊤ | Some slots ↦ Linked slots.value ] };
}

/// How many tokens from the one of this number on stand before the `)` that has no `(` among them, where the last token stands
/// first.
#[tactic(auto, using(crate::proofs::Segments::behind_is, crate::proofs::Segments::behind_none, crate::proofs::Segments::behind_few))]
fn close_behind(slots: &List<Slot>, i: usize) -> Option<usize>
    requires { Linked (reverse slots.now) }
    ensures value { result ≡ close_at 0 (map slot_word (drop i (reverse slots.now))) }
    ensures room { IfSome result (λ n. n < 2 ^ 32) }
{
    let count = slots.len();
    if i >= count {
        return None;
    }
    let slot = slots.get(count - 1 - i)?;
    slot.close
}

/// The same for a `(` that stands before them.
fn close_over(slots: &List<Slot>) -> Option<usize>
    requires { Linked (reverse slots.now) }
    ensures { result ≡ option_map (λ n. n + 1) (close_at 1 (map slot_word (reverse slots.now))) }
{
    let inside = close_behind(slots, 0)?;
    let behind = close_behind(slots, inside + 1)?;
    Some(inside + behind + 2)
}

/// The same for a token that stands before them.
fn close_from(slots: &List<Slot>, token: &PpToken) -> Option<usize>
    requires { Linked (reverse slots.now) }
    ensures { result ≡ close_at 0 (fresh token.now ∷ map slot_word (reverse slots.now)) }
{
    if is_mark(token, b")".as_slice()) {
        return Some(0);
    }
    if is_mark(token, b"(".as_slice()) {
        return close_over(slots);
    }
    let behind = close_behind(slots, 0)?;
    Some(behind + 1)
}

/// The tokens with what each tells of those behind it, the last first.
fn linked(alloc: Global, words: List<Word>) -> Mem<List<Slot>>
    ensures linked { IfOk result (λ slots. Linked (reverse slots)) }
    ensures words { IfOk result (λ slots. map slot_word (reverse slots) ≡ map taken words) }
{
    let mut words = words;
    let mut slots = List::new(alloc);
    while let Some(word) = words.pop() {
        let close = close_from(&slots, &word.token);
        slots.push(Slot {
            token: word.token,
            hide: word.hide,
            close,
        })?;
    }
    Ok(slots)
}

impl Segment {
    /// No token.
    pub(crate) fn none() -> Segment
        ensures { result ≡ [] }
    {
        Segment { slots: None }
    }

    /// These tokens, as an invocation takes them.
    pub(crate) fn of(alloc: Global, words: List<Word>) -> Mem<Segment>
        ensures { IfOk result (λ all. all ≡ map taken words) }
    {
        let back = linked(alloc, words)?;
        let slots = reversed(alloc, back)?;
        let slots = Arc::new(alloc, slots)?;
        Ok(Segment { slots: Some(slots) })
    }

    /// The same tokens, shared.
    pub(crate) fn share(&self) -> Mem<Segment>
        ensures { IfOk result (λ all. all ≡ self.now) }
    {
        let Some(slots) = &self.slots else {
            return Ok(Segment::none());
        };
        let slots = slots.clone()?;
        Ok(Segment { slots: Some(slots) })
    }

    fn slots(&self) -> &[Slot]
        ensures words { map slot_word result.now ≡ self.now }
        ensures linked { Linked result.now }
        ensures room { length result.now < 2 ^ 32 }
    {
        match &self.slots {
            Some(slots) => slots.as_slice(),
            None => &[],
        }
    }

    /// The number of tokens.
    #[tactic(auto, using(crate::proofs::Segments::all_taken, crate::proofs::Segments::as_many))]
    pub(crate) fn len(&self) -> usize
        ensures value { result ≡ length self.now }
        ensures room { result < 2 ^ 32 }
        ensures taken { map taken self.now ≡ self.now }
    {
        self.slots().len()
    }

    /// The token of this number, from 0.
    #[tactic(auto, using(crate::proofs::Segments::word_at))]
    pub(crate) fn get(&self, i: usize) -> Option<&Slot>
        ensures { option_map slot_word (option_copied result) ≡ slice_get self.now i }
    {
        self.slots().get(i)
    }

    /// How many tokens from the one of this number on stand before the `)` that has no `(` among them, if there is one.
    #[tactic(auto, using(crate::proofs::Segments::close_none))]
    pub(crate) fn close(&self, i: usize) -> Option<usize>
        ensures value { result ≡ close_at 0 (drop i self.now) }
        ensures room { IfSome result (λ n. n < 2 ^ 32) }
    {
        let slot = self.slots().get(i)?;
        slot.close
    }
}
