//! Whether tokens end whole.

ghost use Rattle.std.specs.Prelude.{◌≡◌, ◌<◌, ◌≤◌, ◌^◌, true, false, IfOk, length, slice_get};
ghost use Rattle.cl_parse.specs.Whole as w;

use crate::extent::{brace_at, is_closing, last, partner_at, past_stop, spells_at};
use cl_base::{Mem, Memory, PpToken};
use cl_tree::brackets;
use std::alloc::Global;

/// The most tokens: 2^32 - 5.
const MOST: usize = 0xffff_fffb;

/// Whether the token at a number is an open bracket.
fn is_opening(tokens: &[PpToken], at: usize) -> bool
    ensures { result ≡ w.is_opening tokens.now at }
{
    spells_at(tokens, at, b"(".as_slice())
        || spells_at(tokens, at, b"[".as_slice())
        || spells_at(tokens, at, b"<:".as_slice())
        || brace_at(tokens, at)
}

/// Whether the token at a number is a closing bracket.
fn is_ending(tokens: &[PpToken], at: usize) -> bool
    ensures { result ≡ w.is_ending tokens.now at }
{
    is_closing(tokens, at)
        || spells_at(tokens, at, b"}".as_slice())
        || spells_at(tokens, at, b"%>".as_slice())
}

/// Whether the token at a number is a punctuator.
fn is_punct(tokens: &[PpToken], at: usize) -> bool
    ensures { result ≡ w.is_punct_of (slice_get tokens.now at) }
{
    match tokens.get(at) {
        Some(token) => token.kind.is_punct(),
        None => false,
    }
}

/// Whether the token at a number is a bracket without a partner.
fn is_alone(tokens: &[PpToken], pairs: &[u32], at: usize) -> bool
    ensures { result ≡ w.is_alone tokens.now pairs.now at }
{
    is_punct(tokens, at)
        && (is_opening(tokens, at) || is_ending(tokens, at))
        && partner_at(pairs, at) == at
}

/// Whether each bracket has its partner.
fn all_paired(tokens: &[PpToken], pairs: &[u32]) -> bool
    requires room { length tokens.now < 2 ^ 32 }
    ensures yes { result ≡ true → w.AllPaired tokens.now pairs.now }
    ensures no { result ≡ false → w.AllPaired tokens.now pairs.now → ⊥ }
{
    let mut at = 0;
    while at < tokens.len() {
        let alone = is_alone(tokens, pairs, at);
        if alone {
            return false;
        }
        at += 1;
    }
    true
}

/// Whether the last extent ends with the last token.
fn last_ends(tokens: &[PpToken], pairs: &[u32]) -> bool
    requires room { length tokens.now < 2 ^ 32 }
    requires some { 0 < length tokens.now }
    ensures yes { result ≡ true → w.LastEnds tokens.now pairs.now 0 }
    ensures no { result ≡ false → w.LastEnds tokens.now pairs.now 0 → ⊥ }
{
    let mut at = 0;
    let mut ended = false;
    while at < tokens.len() {
        let stop = last(tokens, pairs, at);
        ended = stop < tokens.len();
        at = past_stop(tokens, pairs, stop);
    }
    ended
}

/// Whether there are no tokens, or all brackets are paired and the last token is a `;` outside all brackets or closes the
/// body of the last item, where the items are told by the brackets alone and each is taken whole. 2^32 - 4 tokens or more
/// are want of memory.
pub fn ends_whole(alloc: Global, tokens: &[PpToken]) -> Mem<bool>
    ensures yes { IfOk result (λ whole. whole ≡ true → w.EndsWhole tokens.now) }
    ensures no { IfOk result (λ whole. whole ≡ false → w.EndsWhole tokens.now → ⊥) }
{
    if tokens.len() > MOST {
        return Err(Memory);
    }
    let pairs = brackets(alloc, tokens)?;
    if tokens.is_empty() {
        return Ok(true);
    }
    let paired = all_paired(tokens, pairs.as_slice());
    if !paired {
        return Ok(false);
    }
    Ok(last_ends(tokens, pairs.as_slice()))
}
