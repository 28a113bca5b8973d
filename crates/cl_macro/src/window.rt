//! Tokens in a row of a segment.

ghost use Rattle.std.specs.Prelude.{◌≡◌, ◌-◌, ◌+◌, ◌^◌, ◌<◌, ◌≤◌, ◌++◌, [], ◌∷◌, length, drop, take, map, slice_get, slice_range, IfOk, IfSome};
ghost use Rattle.std.specs.Option.{option_copied, option_map};
ghost use Rattle.cl_macro.specs.Turns.{close_at};
ghost use Rattle.cl_macro.specs.Words.{taken};
ghost use Rattle.cl_macro.specs.code.Segments.{slot_word};

use crate::segment::{Segment, Slot};
use crate::word::Word;
use cl_base::{List, Mem};
use std::alloc::Global;
use std::marker::Model;

/// Tokens in a row that invocations have taken, in their order. A part of them shares their segment.
#[derive(Drop)]
pub(crate) struct Window {
    segment: Segment,
    from: usize,
    to: usize,
}

impl Model for Window {
    ghost use Rattle.std.specs.Prelude.{List, ◌≤◌, length, slice_range};
    ghost use Rattle.cl_macro.specs.declared.word.Word.{Word as TheWord};

    ghost Value = { List TheWord };

    ghost view = { λ it. slice_range it.segment it.from it.to };

    ghost invariant = { λ it. (it.from ≤ it.to) × (it.to ≤ length it.segment) };
}

impl Window {
    /// No token.
    pub(crate) fn none() -> Window
        ensures { result ≡ [] }
    {
        Window {
            segment: Segment::none(),
            from: 0,
            to: 0,
        }
    }

    /// These tokens, as an invocation takes them.
    pub(crate) fn of(alloc: Global, words: List<Word>) -> Mem<Window>
        ensures { IfOk result (λ all. all ≡ map taken words) }
    {
        let segment = Segment::of(alloc, words)?;
        let to = segment.len();
        Ok(Window {
            segment,
            from: 0,
            to,
        })
    }

    /// The number of tokens.
    #[tactic(auto, using(crate::proofs::Windows::range_taken))]
    pub(crate) fn len(&self) -> usize
        ensures value { result ≡ length self.now }
        ensures room { result < 2 ^ 32 }
        ensures taken { map taken self.now ≡ self.now }
    {
        let _count = self.segment.len();
        self.to - self.from
    }

    /// The token of this number, from 0.
    #[tactic(auto, using(crate::proofs::Windows::range_get, crate::proofs::Windows::range_past))]
    pub(crate) fn get(&self, i: usize) -> Option<&Slot>
        ensures { option_map slot_word (option_copied result) ≡ slice_get self.now i }
    {
        if i >= self.to - self.from {
            return None;
        }
        self.segment.get(self.from + i)
    }

    /// The tokens from this number up to that one.
    pub(crate) fn part(&self, from: usize, to: usize) -> Mem<Window>
        requires order { from ≤ to }
        requires within { to ≤ length self.now }
        ensures { IfOk result (λ part. part ≡ slice_range self.now from to) }
    {
        let _most = self.segment.len();
        let segment = self.segment.share()?;
        Ok(Window {
            segment,
            from: self.from + from,
            to: self.from + to,
        })
    }

    /// Leaves out the first so many.
    #[tactic(auto, using(crate::proofs::Windows::range_drop))]
    pub(crate) fn skip(&mut self, count: usize)
        requires { count ≤ length self.old }
        ensures { self.new ≡ drop count self.old }
    {
        self.from += count;
    }

    /// How many tokens behind the one of this number stand before the `)` that has no `(` among them, if there is one.
    #[tactic(auto, using(crate::proofs::Windows::group_none, crate::proofs::Windows::group_past))]
    pub(crate) fn group(&self, i: usize) -> Option<usize>
        ensures { result ≡ close_at 0 (drop (i + 1) self.now) }
    {
        let count = self.len();
        if i >= count {
            return None;
        }
        let _most = self.segment.len();
        let first = self.from + i + 1;
        let inside = self.segment.close(first)?;
        if first + inside >= self.to {
            return None;
        }
        Some(inside)
    }

    /// Copies of the tokens.
    pub(crate) fn words(&self, alloc: Global) -> Mem<List<Word>>
        ensures { IfOk result (λ words. words ≡ self.now) }
    {
        let _count = self.len();
        let mut words = List::new(alloc);
        let mut i = 0;
        while let Some(slot) = self.get(i) {
            words.push(slot.word(alloc)?)?;
            i += 1;
        }
        Ok(words)
    }
}
