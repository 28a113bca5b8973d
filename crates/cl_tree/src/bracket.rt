//! The partners of brackets.

ghost use Rattle.std.specs.Prelude.{◌≡◌, ◌<◌, ◌≤◌, ◌^◌, Some, None, false, IfOk, length, slice_get, slice_set, nat_lt, ◌&&◌, ◌-◌};
ghost use Rattle.cl_tree.specs.Brackets as b;
ghost use Rattle.cl_tree.specs.Ends.{last};
ghost use Rattle.cl_tree.specs.declared.bracket.Bracket.TheVariants as br;
ghost use Rattle.cl_tree.specs.declared.bracket.Side.TheVariants as side;

use crate::spelling::same_text;
use cl_base::{List, Mem, Memory, PpToken};
use std::alloc::Global;

/// The most tokens that have partners: one fewer than 2^32.
const MOST: usize = 0xffff_fffe;

/// A kind of brackets.
#[derive(Clone, Copy)]
pub enum Side {
    /// `(` and `)`.
    Round,
    /// `[` and `]`, with their digraphs.
    Square,
    /// `{` and `}`, with their digraphs.
    Curly,
}

/// What a token is to the brackets.
#[derive(Clone, Copy)]
pub enum Bracket {
    /// No bracket.
    None,
    /// An open one.
    Open(Side),
    /// A closing one.
    Close(Side),
}

/// An open bracket that has no partner yet, by the number of its token.
#[derive(Clone, Copy)]
pub struct Opened {
    pub at: u32,
    pub side: Side,
}

/// Whether a text begins as a bracket does. Most punctuators don't.
fn begins_as_bracket(text: &[u8]) -> bool
    ensures { result ≡ false → b.bracket_by text.now ≡ br.None }
{
    match text.get(0) {
        Some(byte) => matches!(
            *byte,
            b'(' | b')' | b'[' | b']' | b'{' | b'}' | b'<' | b':' | b'%'
        ),
        None => false,
    }
}

/// What a token is to the brackets, by its spelling (N1570 6.4.6).
fn bracket_of(token: &PpToken) -> Bracket
    ensures { result ≡ b.bracket_of token.now }
{
    if !token.kind.is_punct() {
        return Bracket::None;
    }
    let text = token.text.bytes();
    let begins = begins_as_bracket(text);
    if begins {
        bracket_by(text)
    } else {
        Bracket::None
    }
}

/// What a punctuator is to the brackets.
fn bracket_by(text: &[u8]) -> Bracket
    ensures { result ≡ b.bracket_by text.now }
{
    if same_text(text, b"(".as_slice()) {
        Bracket::Open(Side::Round)
    } else if same_text(text, b")".as_slice()) {
        Bracket::Close(Side::Round)
    } else if same_text(text, b"[".as_slice()) || same_text(text, b"<:".as_slice()) {
        Bracket::Open(Side::Square)
    } else if same_text(text, b"]".as_slice()) || same_text(text, b":>".as_slice()) {
        Bracket::Close(Side::Square)
    } else if same_text(text, b"{".as_slice()) || same_text(text, b"<%".as_slice()) {
        Bracket::Open(Side::Curly)
    } else if same_text(text, b"}".as_slice()) || same_text(text, b"%>".as_slice()) {
        Bracket::Close(Side::Curly)
    } else {
        Bracket::None
    }
}

fn same_side(one: Side, other: Side) -> bool
    ensures { result ≡ b.same_side one other }
{
    matches!(
        (one, other),
        (Side::Round, Side::Round) | (Side::Square, Side::Square) | (Side::Curly, Side::Curly)
    )
}

/// A `{` that is open, by the number of its token, and how many other brackets were open before it.
#[derive(Clone, Copy)]
pub struct Brace {
    pub at: u32,
    pub before: u32,
}

/// What is open after some tokens, and their partners so far.
#[derive(Drop)]
pub struct Pairs {
    pub braces: List<Brace>,
    pub others: List<Opened>,
    pub partners: Vec<u32>,
}

/// Writes a number to a place of a list, if it has that place.
fn put(numbers: &mut [u32], at: usize, number: u32)
    ensures { numbers.new ≡ slice_set numbers.old at number }
{
    if at < numbers.len() {
        numbers[at] = number;
    }
}

/// A token without a partner so far.
fn alone(pairs: Pairs) -> Mem<Pairs>
    requires room { length pairs.partners.items < 2 ^ 32 }
    ensures { IfOk result (λ after. b.seen after ≡ b.alone (b.seen pairs)) }
{
    let mut partners = pairs.partners;
    let at = partners.len() as u32;
    partners.push(at)?;
    Ok(Pairs {
        braces: pairs.braces,
        others: pairs.others,
        partners,
    })
}

/// The partners, where the next token has this one.
fn paired(partners: Vec<u32>, partner: u32) -> Mem<Vec<u32>>
    requires room { length partners.items < 2 ^ 32 }
    ensures { IfOk result (λ after. after.items ≡ b.paired partners.items partner) }
{
    let mut after = partners;
    let at = after.len() as u32;
    put(after.as_mut_slice(), partner as usize, at);
    after.push(partner)?;
    Ok(after)
}

/// One more token, an open bracket.
fn open_one(pairs: Pairs, side: Side) -> Mem<Pairs>
    requires room { length pairs.partners.items < 2 ^ 32 }
    ensures { IfOk result (λ after. b.seen after ≡ b.open_bracket (b.seen pairs) side) }
{
    let at = pairs.partners.len() as u32;
    let mut braces = pairs.braces;
    let mut others = pairs.others;
    match side {
        Side::Curly => braces.push(Brace {
            at,
            before: others.len() as u32,
        })?,
        Side::Round | Side::Square => others.push(Opened { at, side })?,
    }
    alone(Pairs {
        braces,
        others,
        partners: pairs.partners,
    })
}

/// One more token, a `}`.
fn closed_brace(pairs: Pairs) -> Mem<Pairs>
    requires room { length pairs.partners.items < 2 ^ 32 }
    ensures { IfOk result (λ after. b.seen after ≡ b.close_bracket (b.seen pairs) side.Curly) }
{
    let mut braces = pairs.braces;
    match braces.pop() {
        Some(brace) => {
            let mut others = pairs.others;
            others.truncate(brace.before as usize);
            let partners = paired(pairs.partners, brace.at)?;
            Ok(Pairs {
                braces,
                others,
                partners,
            })
        }
        None => alone(Pairs {
            braces,
            others: pairs.others,
            partners: pairs.partners,
        }),
    }
}

/// The item at the end.
fn last_brace(braces: &[Brace]) -> Option<Brace>
    ensures { result ≡ slice_get braces.now (length braces.now - 1) }
{
    braces.get(braces.len().saturating_sub(1)).copied()
}

/// How many other brackets were open before the last open `{`.
fn opened_before(braces: &[Brace]) -> usize
    ensures { result ≡ b.opened_before (slice_get braces.now (length braces.now - 1)) }
{
    match last_brace(braces) {
        Some(brace) => brace.before as usize,
        None => 0,
    }
}

/// Whether a bracket was opened after the last `{`, and is of this kind.
fn fits(top: Opened, side: Side, before: usize, count: usize) -> bool
    ensures { result ≡ (nat_lt before count && b.same_side top.side side) }
{
    before < count && same_side(top.side, side)
}

/// One more token, a `)` or `]`.
fn closed_other(pairs: Pairs, side: Side) -> Mem<Pairs>
    requires room { length pairs.partners.items < 2 ^ 32 }
    ensures { IfOk result (λ after. b.seen after ≡ b.close_other (b.seen pairs) side (last pairs.others)) }
{
    let before = opened_before(pairs.braces.as_slice());
    let count = pairs.others.len();
    let mut others = pairs.others;
    let Some(top) = others.pop() else {
        return alone(Pairs {
            braces: pairs.braces,
            others,
            partners: pairs.partners,
        });
    };
    let found = fits(top, side, before, count);
    if found {
        let partners = paired(pairs.partners, top.at)?;
        return Ok(Pairs {
            braces: pairs.braces,
            others,
            partners,
        });
    }
    others.push(top)?;
    alone(Pairs {
        braces: pairs.braces,
        others,
        partners: pairs.partners,
    })
}

/// One more token.
fn next(pairs: Pairs, bracket: Bracket) -> Mem<Pairs>
    requires room { length pairs.partners.items < 2 ^ 32 }
    ensures { IfOk result (λ after. b.seen after ≡ b.next (b.seen pairs) bracket) }
{
    match bracket {
        Bracket::None => alone(pairs),
        Bracket::Open(side) => open_one(pairs, side),
        Bracket::Close(side) => match side {
            Side::Curly => closed_brace(pairs),
            Side::Round => closed_other(pairs, Side::Round),
            Side::Square => closed_other(pairs, Side::Square),
        },
    }
}

/// Each token's partner, or itself: brackets that belong together. A `}` goes with the last open `{`, and leaves what was
/// opened after that alone. A `)` or `]` goes with the last open bracket, if that is of its kind. 2^32 tokens or more are
/// want of memory.
#[tactic(auto, unfolding(crate::specs::Brackets::brackets))]
pub fn brackets(alloc: Global, tokens: &[PpToken]) -> Mem<List<u32>>
    ensures { IfOk result (λ partners. partners ≡ b.brackets tokens.now) }
{
    let mut pairs = Pairs {
        braces: List::new(alloc),
        others: List::new(alloc),
        partners: Vec::new(alloc),
    };
    for token in tokens {
        if pairs.partners.len() > MOST {
            return Err(Memory);
        }
        match bracket_of(token) {
            Bracket::None => {
                let at = pairs.partners.len() as u32;
                pairs.partners.push(at)?;
            }
            bracket => pairs = next(pairs, bracket)?,
        }
    }
    let mut all = List::new(alloc);
    all.extend(pairs.partners.as_slice())?;
    Ok(all)
}

/// Whether the token at a number spells this.
fn spells_at(tokens: &[PpToken], at: usize, text: &[u8]) -> bool
    ensures { result ≡ b.spells_at tokens.now at text.now }
{
    match tokens.get(at) {
        Some(token) => token.text.bytes() == text,
        None => false,
    }
}

/// The partner of the token at a number; past the end 0.
fn partner_at(pairs: &List<u32>, at: usize) -> usize
    ensures value { result ≡ b.partner_by (slice_get pairs.now at) }
    ensures room { result < 2 ^ 32 }
{
    match pairs.get(at) {
        Some(partner) => *partner as usize,
        None => 0,
    }
}

/// Whether the token at a number is `{`.
fn brace_at(tokens: &[PpToken], at: usize) -> bool
    ensures { result ≡ b.brace_at tokens.now at }
{
    spells_at(tokens, at, b"{".as_slice()) || spells_at(tokens, at, b"<%".as_slice())
}

/// Past a brace group, within what ends there.
fn past_group(partner: usize, end: u32) -> u32
    ensures { result ≡ b.past_group partner end }
{
    if partner < end as usize {
        partner as u32 + 1
    } else {
        end
    }
}

/// The end of the bad item that begins at `from`, before `end`: past the first `;` or the first brace group at its depth,
/// whichever ends first, else `end`. `pairs` are the partners that `brackets` gives.
#[tactic(auto, unfolding(crate::specs::Brackets::bad_from))]
pub fn bad_extent(tokens: &[PpToken], pairs: &List<u32>, from: u32, end: u32) -> u32
    ensures { result ≡ b.bad_extent tokens.now pairs.now from end }
{
    let mut at = from as usize;
    for _used in from..end {
        if at >= end as usize {
            return end;
        }
        let semicolon = spells_at(tokens, at, b";".as_slice());
        if semicolon {
            return at as u32 + 1;
        }
        let partner = partner_at(pairs, at);
        if at < partner {
            let brace = brace_at(tokens, at);
            if brace {
                return past_group(partner, end);
            }
            at = partner + 1;
        } else {
            at += 1;
        }
    }
    end
}
