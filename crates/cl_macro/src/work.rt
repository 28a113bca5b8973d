//! Tokens in work, one before the other.

ghost use Rattle.std.specs.Prelude.{◌≡◌, ◌-◌, ◌+◌, ◌^◌, ◌<◌, ◌≤◌, ◌++◌, ◌↔◌, [], ◌∷◌, length, drop, take, map, reverse, slice_get, option_to_list, IfOk, IfSome, OnOk, IsSome};
ghost use Rattle.std.specs.Option.{option_map};
ghost use Rattle.cl_macro.specs.Levels.{seen_word};
ghost use Rattle.cl_macro.specs.Turns.{close_at};
ghost use Rattle.cl_macro.specs.Words.{taken};
ghost use Rattle.cl_macro.specs.code.Segments.{Found};

use crate::seen::Seen;
use crate::window::Window;
use crate::word::Word;
use cl_base::{List, Mem};
use std::alloc::Global;
use std::marker::Model;

/// Tokens in work, the next last: those that replacements made, before those of an argument.
#[derive(Drop)]
pub(crate) struct Work {
    made: List<Word>,
    kept: Window,
}

impl Model for Work {
    ghost use Rattle.std.specs.Prelude.{List, ◌++◌, reverse};
    ghost use Rattle.cl_macro.specs.declared.word.Word.{Word as TheWord};

    ghost Value = { List TheWord };

    ghost view = { λ it. reverse it.kept ++ it.made };
}

impl Work {
    /// No token.
    pub(crate) fn new(alloc: Global) -> Work
        ensures { result ≡ [] }
    {
        Work {
            made: List::new(alloc),
            kept: Window::none(),
        }
    }

    /// The tokens of an argument.
    #[tactic(auto, using(crate::proofs::Works::of_kept))]
    pub(crate) fn of(alloc: Global, kept: Window) -> Work
        ensures { reverse result ≡ kept }
    {
        Work {
            made: List::new(alloc),
            kept,
        }
    }

    /// The number of tokens.
    #[tactic(auto, using(crate::proofs::Works::both_long))]
    pub(crate) fn len(&self) -> usize
        ensures value { result ≡ length self.now }
        ensures room { result < 2 ^ 33 }
    {
        self.made.len() + self.kept.len()
    }

    /// The token so many behind the next one.
    #[tactic(auto, using(crate::proofs::Works::see_made, crate::proofs::Works::see_kept))]
    pub(crate) fn see(&self, i: usize) -> Option<Seen<'_>>
        ensures { option_map seen_word result ≡ slice_get (reverse self.now) i }
    {
        let here = self.made.len();
        if i < here {
            let word = self.made.get(here - 1 - i)?;
            return Some(Seen::Made(word));
        }
        let slot = self.kept.get(i - here)?;
        Some(Seen::Kept(slot))
    }

    /// Takes the next token.
    #[tactic(auto, using(crate::proofs::Works::pop_kept))]
    pub(crate) fn pop(&mut self, alloc: Global) -> Mem<Option<Word>>
        ensures items { IfOk result (λ word. self.old ≡ self.new ++ option_to_list word) }
        ensures some { IfOk result (λ word. IsSome word ↔ (0 < length self.old)) }
    {
        if let Some(word) = self.made.pop() {
            return Ok(Some(word));
        }
        let Some(slot) = self.kept.get(0) else {
            return Ok(None);
        };
        let word = slot.word(alloc)?;
        self.kept.skip(1);
        Ok(Some(word))
    }

    /// Adds a token before the next one.
    pub(crate) fn push(&mut self, word: Word) -> Mem<()>
        ensures { OnOk result (self.new ≡ self.old ++ word ∷ []) }
    {
        self.made.push(word)
    }

    /// Gives memory back that few tokens leave empty.
    pub(crate) fn shrink(&mut self)
        ensures { self.new ≡ self.old }
    {
        self.made.shrink();
    }

    /// How many tokens behind the one so many behind the next stand before the `)` that has no `(` among them, where that is
    /// known.
    #[tactic(auto, using(crate::proofs::Works::group_kept))]
    pub(crate) fn group(&self, i: usize) -> Option<usize>
        ensures { IfSome result (λ n. Some n ≡ close_at 0 (drop (i + 1) (reverse self.now))) }
    {
        let here = self.made.len();
        if i < here {
            return None;
        }
        self.kept.group(i - here)
    }

    /// Takes the next so many tokens, where they all are those of an argument.
    pub(crate) fn window(&mut self, count: usize) -> Mem<Option<Window>>
        ensures { IfOk result (λ found. Found count self.old self.new found) }
    {
        let made = self.made.len();
        if made > 0 {
            return Ok(None);
        }
        let kept = self.kept.len();
        if kept < count {
            return Ok(None);
        }
        let part = self.kept.part(0, count)?;
        self.kept.skip(count);
        Ok(Some(part))
    }
}
