//! The characters of a text after translation phases 1 and 2 (N1570 5.1.1.2).

ghost use Rattle.std.specs.Prelude.{◌≡◌, ◌≤◌, ◌<◌, ◌^◌, ◌↔◌, ◌++◌, ◌∷◌, [], IfOk, OnOk, IsTrue, Some, None, length, slice_index, slice_range, ℕ, false};
ghost use Rattle.cl_lex.specs.Source.{characters, values};
ghost use Rattle.cl_lex.specs.Lexing.{begins, ends};
ghost use Rattle.cl_lex.specs.Held.{IsJoined};
ghost use Rattle.cl_lex.specs.Plain.{IsPlain, is_plain_at, is_special};

use crate::pieces::{is_splice, splice_width, value_at, width_at};
use cl_base::{Mem, Name, Text};
use memchr::memchr3;
use std::alloc::Global;
use std::marker::Model;

/// The characters of a text. The text is at most 2^28 bytes long.
#[derive(Drop)]
pub struct Source<'a> {
    text: &'a [u8],
    chars: Text,
    starts: Option<Starts>,
}

/// Where each character of a text begins.
#[derive(Drop)]
struct Starts {
    places: Vec<u32>,
}

/// The characters of a text in which some are written with several bytes: their values, and where each begins.
#[derive(Drop)]
struct Joined {
    values: Vec<u8>,
    starts: Vec<u32>,
}

impl<'a> Model for Source<'a> {
    ghost use Rattle.std.specs.Prelude.{List, ℕ};
    ghost use Rattle.cl_lex.specs.Held.{IsHeld};

    ghost Value = { List ℕ };

    ghost view = { λ s. s.text.now };

    ghost invariant = { λ s. IsHeld s.text.now s.chars s.starts };
}

impl<'a> Source<'a> {
    /// The characters of the text, after translation phases 1 and 2.
    pub fn new(alloc: Global, text: &'a [u8]) -> Mem<Source<'a>>
        requires { length text.now ≤ 2 ^ 28 }
        ensures { IfOk result (λ s. s ≡ text.now) }
    {
        if is_plain(text) {
            let chars = Text::new(alloc, text)?;
            return Ok(Source {
                text,
                chars,
                starts: None,
            });
        }
        let Joined { values, starts } = join(alloc, text)?;
        let chars = Text::from_vec(alloc, values)?;
        let starts = Some(Starts { places: starts });
        Ok(Source {
            text,
            chars,
            starts,
        })
    }

    /// The characters' values: a line end is 10.
    pub fn chars(&self) -> &[u8]
        ensures value { result.now ≡ values (characters self.now) }
        ensures all { length result.now ≡ length (characters self.now) }
        ensures count { length result.now ≤ length self.now }
        ensures short { length self.now ≤ 2 ^ 28 }
    {
        self.chars.bytes()
    }

    /// The characters from one up to, and without, another, as a name that shares them.
    pub fn name(&self, alloc: Global, from: usize, to: usize) -> Mem<Name>
        requires order { from ≤ to }
        requires within { to ≤ length (characters self.now) }
        ensures { IfOk result (λ name. name ≡ slice_range (values (characters self.now)) from to) }
    {
        let name = Name::cut(alloc, &self.chars, from as u32, to as u32)?;
        Ok(name)
    }

    /// The byte of the text at which a character begins.
    pub fn begins(&self, at: usize) -> u32
        requires { at < length (characters self.now) }
        ensures value { result ≡ begins (characters self.now) at }
        ensures within { result < length self.now }
        ensures short { length self.now ≤ 2 ^ 28 }
    {
        match &self.starts {
            None => at as u32,
            Some(starts) => starts.places[at],
        }
    }

    /// The byte of the text at which the characters before `to` end.
    pub fn ends(&self, to: usize) -> u32
        requires some { 0 < to }
        requires within { to ≤ length (characters self.now) }
        ensures value { result ≡ ends (characters self.now) to }
        ensures within { result ≤ length self.now }
        ensures short { length self.now ≤ 2 ^ 28 }
    {
        match &self.starts {
            None => to as u32,
            Some(starts) => {
                let last = starts.places[to - 1];
                last + width_at(self.text, last as usize) as u32
            }
        }
    }
}

impl Joined {
    /// Adds a character that begins at this byte.
    fn add(&mut self, value: u8, start: u32) -> Mem<()>
        ensures values { OnOk result (self.new.values.items ≡ self.old.values.items ++ value ∷ []) }
        ensures starts { OnOk result (self.new.starts.items ≡ self.old.starts.items ++ start ∷ []) }
    {
        self.values.push(value)?;
        self.starts.push(start)?;
        Ok(())
    }
}

/// Whether the byte may be no character by itself: CR, `?` or a backslash.
#[inline(always)]
fn is_special(c: u8) -> bool
    ensures { result ≡ is_special c }
{
    matches!(c, b'\r' | b'?' | b'\\')
}

/// The first such byte from here on, or the text's length where there is none.
fn next_special(text: &[u8], from: usize) -> usize
    requires { from ≤ length text.now }
    ensures ahead { from ≤ result }
    ensures within { result ≤ length text.now }
    ensures ordinary { (i : ℕ) → from ≤ i → i < result → is_special (slice_index text.now i) ≡ false }
{
    let (_, left) = text.split_at(from);
    match memchr3(b'\r', b'?', b'\\', left) {
        Some(found) => from + found,
        None => text.len(),
    }
}

/// Whether the byte here is a character by itself.
#[inline(always)]
fn is_plain_at(text: &[u8], at: usize) -> bool
    requires within { at < length text.now }
    requires small { at < 2 ^ 31 }
    ensures { result ≡ is_plain_at text.now at }
{
    if at > 0 && !is_special(text[at]) {
        true
    } else {
        is_plain_special(text, at)
    }
}

/// The same, by the bytes after it.
#[inline(never)]
fn is_plain_special(text: &[u8], at: usize) -> bool
    requires within { at < length text.now }
    requires small { at < 2 ^ 31 }
    ensures { result ≡ is_plain_at text.now at }
{
    value_at(text, at) == text[at] && width_at(text, at) == 1 && !is_splice(text, at)
}

/// Whether each byte of the text is a character by itself.
fn is_plain(text: &[u8]) -> bool
    requires { length text.now ≤ 2 ^ 28 }
    ensures { IsTrue result ↔ IsPlain text.now }
{
    let mut at = 0;
    while at < text.len() {
        if !is_plain_special(text, at) {
            return false;
        }
        at = next_special(text, at + 1);
    }
    true
}

/// The characters of a text, and where they begin.
fn join(alloc: Global, text: &[u8]) -> Mem<Joined>
    requires { length text.now ≤ 2 ^ 28 }
    ensures { IfOk result (λ joined. IsJoined text.now joined) }
{
    let mut joined = Joined {
        values: Vec::with_capacity(alloc, text.len())?,
        starts: Vec::with_capacity(alloc, text.len())?,
    };
    let mut at = 0;
    while at < text.len() {
        if is_plain_at(text, at) {
            joined.add(text[at], at as u32)?;
            at += 1;
        } else if is_splice(text, at) {
            at += splice_width(text, at);
        } else {
            joined.add(value_at(text, at), at as u32)?;
            at += width_at(text, at);
        }
    }
    Ok(joined)
}
