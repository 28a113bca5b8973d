//! Cuts the tokens of a file into its lines.

ghost use Rattle.std.specs.Prelude.{◌≡◌, ◌<◌, ◌≤◌, ◌+◌, ◌^◌, length, IfOk, nat_eq, codes};
ghost use Rattle.std.specs.Cmp.Lexicographic.{pointwise};
ghost use Rattle.cl_cond.specs.Lines.{EndsLine, Lines, named, part_at, token_at, word_part};

use crate::mark::{Condition, Mark, Part};
use cl_base::{List, Mem, Memory, Token};
use std::alloc::Global;

/// The most tokens that have their numbers: 2^32 - 1.
const MOST: usize = 0xffff_ffff;

/// The lines of a file of these tokens, in order. 2^32 tokens or more are want of memory.
pub fn lines(alloc: Global, tokens: &[Token]) -> Mem<List<Mark>>
    ensures { IfOk result (λ lines. Lines tokens.now 0 lines) }
{
    if tokens.len() > MOST {
        return Err(Memory);
    }
    let mut lines = List::new(alloc);
    let mut at = 0;
    while at < tokens.len() {
        let to = line_end(tokens, at);
        lines.push(Mark {
            part: part_at(tokens, at, to),
            from: at as u32,
            to: to as u32,
        })?;
        at = to;
    }
    Ok(lines)
}

/// Where the line ends that begins with this token.
fn line_end(tokens: &[Token], from: usize) -> usize
    requires { from < length tokens.now }
    ensures { EndsLine tokens.now from result }
{
    let mut end = from + 1;
    while end < tokens.len() && !tokens[end].first {
        end += 1;
    }
    end
}

/// What the line of these tokens is.
fn part_at(tokens: &[Token], from: usize, to: usize) -> Part
    requires some { from < to }
    requires within { to ≤ length tokens.now }
    ensures { result ≡ part_at tokens.now from to }
{
    if tokens[from].is_hash() && from + 1 < to {
        named(&tokens[from + 1])
    } else {
        Part::Line
    }
}

/// What a directive of this name is.
fn named(name: &Token) -> Part
    ensures { result ≡ named name.now }
{
    if name.kind.is_ident() {
        word_part(name.text.bytes())
    } else {
        Part::Line
    }
}

/// What a directive of this name is.
fn word_part(word: &[u8]) -> Part
    ensures { result ≡ word_part word.now }
{
    if word == b"if".as_slice() {
        Part::Branch(Condition::If)
    } else if word == b"ifdef".as_slice() {
        Part::Branch(Condition::IfDef)
    } else if word == b"ifndef".as_slice() {
        Part::Branch(Condition::IfNDef)
    } else if word == b"elif".as_slice() {
        Part::Branch(Condition::Elif)
    } else if word == b"else".as_slice() {
        Part::Branch(Condition::Else)
    } else if word == b"endif".as_slice() {
        Part::End
    } else {
        Part::Line
    }
}
