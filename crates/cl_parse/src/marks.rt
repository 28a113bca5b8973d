//! The first tokens of a file that tell where an item ends, from a token on.

ghost use Rattle.std.specs.Prelude.{◌≡◌, ◌<◌, ◌≤◌, ◌^◌, ℕ, length};
ghost use Rattle.cl_parse.specs.Extents as e;
ghost use Rattle.cl_parse.specs.code.Marks as m;

use crate::extent::{begins_body, is_equal, is_semicolon, partner_at, past};
use cl_base::PpToken;

/// What tells where an item ends.
#[derive(Clone, Copy)]
pub(crate) enum Sign {
    /// A `;`.
    Semicolon,
    /// An `=`, behind which no brace group is a body.
    Equal,
    /// The `{` of a brace group that directly follows `)` or `]`.
    Body,
}

/// The first of these tokens outside the brackets that begin at the token `from` or behind it, each the count of the tokens
/// where there is none.
#[derive(Clone, Copy)]
pub(crate) struct Marks {
    from: usize,
    semicolon: usize,
    equal: usize,
    body: usize,
}

fn is_sign(tokens: &[PpToken], pairs: &[u32], sign: Sign, at: usize) -> bool
    ensures { result ≡ m.is_sign tokens.now pairs.now sign at }
{
    match sign {
        Sign::Semicolon => is_semicolon(tokens, at),
        Sign::Equal => is_equal(tokens, at),
        Sign::Body => begins_body(tokens, pairs, at),
    }
}

/// The first such token from one on.
fn first(tokens: &[PpToken], pairs: &[u32], sign: Sign, from: usize) -> usize
    requires room { length tokens.now < 2 ^ 32 }
    requires within { from ≤ length tokens.now }
    ensures { m.IsFirst tokens.now pairs.now sign from result }
{
    let mut at = from;
    while at < tokens.len() {
        let found = is_sign(tokens, pairs, sign, at);
        if found {
            return at;
        }
        at = past(pairs, at);
    }
    tokens.len()
}

/// The first such token from a later one on, which is the same if it stands there or behind.
fn later(
    tokens: &[PpToken],
    pairs: &[u32],
    sign: Sign,
    mark: usize,
    from: usize,
    to: usize,
) -> usize
    requires room { length tokens.now < 2 ^ 32 }
    requires within { to ≤ length tokens.now }
    requires mark { m.IsFirst tokens.now pairs.now sign from mark }
    requires depth { m.Reaches pairs.now (length tokens.now) from to }
    ensures { m.IsFirst tokens.now pairs.now sign to result }
{
    if mark >= to {
        mark
    } else {
        first(tokens, pairs, sign, to)
    }
}

impl Marks {
    /// Those from a token on.
    pub(crate) fn new(tokens: &[PpToken], pairs: &[u32], from: usize) -> Marks
        requires room { length tokens.now < 2 ^ 32 }
        requires within { from ≤ length tokens.now }
        ensures from { result.from ≡ from }
        ensures marks { m.AreMarks tokens.now pairs.now result }
    {
        Marks {
            from,
            semicolon: first(tokens, pairs, Sign::Semicolon, from),
            equal: first(tokens, pairs, Sign::Equal, from),
            body: first(tokens, pairs, Sign::Body, from),
        }
    }

    /// Those from a token on that stands outside the same brackets.
    fn kept(self, tokens: &[PpToken], pairs: &[u32], to: usize) -> Marks
        requires room { length tokens.now < 2 ^ 32 }
        requires within { to ≤ length tokens.now }
        requires marks { m.AreMarks tokens.now pairs.now self }
        requires depth { m.Reaches pairs.now (length tokens.now) self.from to }
        ensures from { result.from ≡ to }
        ensures marks { m.AreMarks tokens.now pairs.now result }
    {
        let from = self.from;
        Marks {
            from: to,
            semicolon: later(tokens, pairs, Sign::Semicolon, self.semicolon, from, to),
            equal: later(tokens, pairs, Sign::Equal, self.equal, from, to),
            body: later(tokens, pairs, Sign::Body, self.body, from, to),
        }
    }

    /// Those from the end of an item on. Over a whole file each token is passed once for each of the three.
    pub(crate) fn moved(self, tokens: &[PpToken], pairs: &[u32], to: usize) -> Marks
        requires room { length tokens.now < 2 ^ 32 }
        requires within { to ≤ length tokens.now }
        requires some { 0 < to }
        requires marks { m.AreMarks tokens.now pairs.now self }
        requires depth { m.Ends pairs.now (length tokens.now) self.from to }
        ensures from { result.from ≡ to }
        ensures marks { m.AreMarks tokens.now pairs.now result }
    {
        if partner_at(pairs, to - 1) < to {
            self.kept(tokens, pairs, to)
        } else {
            Marks::new(tokens, pairs, to)
        }
    }

    /// Where an item stops that begins there: the first `;`, or the `{` of its body where no `=` goes before that; the count
    /// of the tokens without either.
    pub(crate) fn stop(self, tokens: &[PpToken], pairs: &[u32]) -> usize
        requires marks { m.AreMarks tokens.now pairs.now self }
        ensures within { result ≤ length tokens.now }
        ensures stops { result < length tokens.now → e.Stops tokens.now pairs.now self.from result }
        ensures first { (i : ℕ) → i < result → e.Stops tokens.now pairs.now self.from i → ⊥ }
    {
        if self.equal < self.body || self.semicolon < self.body {
            self.semicolon
        } else {
            self.body
        }
    }
}
