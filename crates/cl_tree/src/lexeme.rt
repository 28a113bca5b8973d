//! Tokens as the grammar reads them.

ghost use Rattle.std.specs.Prelude.{◌≡◌, ◌<◌, ◌≤◌, ◌+◌, ◌^◌, IfOk, length, slice_get};
ghost use Rattle.cl_tree.specs.Brackets as b;
ghost use Rattle.cl_tree.specs.Lexemes as l;
ghost use Rattle.cl_tree.specs.Sets.{has};
ghost use Rattle.cl_tree.specs.Shapes as s;
ghost use Rattle.cl_tree.specs.Spellings.{sort_of};

use crate::class::Class;
use crate::set::NameSet;
use crate::shape::{Ahead, Raw, Shape, Sort, shape_of};
use crate::spelling::sort_of;
use cl_base::{Duplicate, Mem, Name, PpToken};
use std::alloc::Global;

/// A token as the grammar reads it: its shape, whether it is an identifier that is a typedef name before the first token of its item, the
/// number of its bracket's partner (its own without one), and its spelling.
#[derive(Drop)]
pub struct Lexeme {
    pub shape: Shape,
    pub typed: bool,
    pub partner: u32,
    pub text: Name,
}

/// What the token at a number is by itself, and to the one before it; past the end nothing that matters.
fn sort_at(tokens: &[PpToken], at: usize) -> Sort
    ensures { result ≡ l.sort_at tokens.now at }
{
    match tokens.get(at) {
        Some(token) => sort_of(token),
        None => Sort {
            raw: Raw::Plain(Class::Other),
            ahead: Ahead::Other,
        },
    }
}

/// Whether the token at a number is `{`.
fn is_brace(tokens: &[PpToken], at: usize) -> bool
    ensures { result ≡ l.is_brace tokens.now at }
{
    match tokens.get(at) {
        Some(token) => token.text.bytes() == b"{".as_slice()
            || token.text.bytes() == b"<%".as_slice(),
        None => false,
    }
}

/// Whether the partner of the token at a number stands directly before `{`.
fn is_literal(tokens: &[PpToken], pairs: &[u32], at: usize) -> bool
    ensures { result ≡ l.is_literal tokens.now pairs.now at }
{
    match pairs.get(at) {
        Some(partner) => is_brace(tokens, *partner as usize + 1),
        None => false,
    }
}

/// The shape of the token at a number. Only at a `(` it matters what follows its partner.
fn shape_at(tokens: &[PpToken], pairs: &[u32], raw: Raw, next: Ahead, at: usize) -> Shape
    ensures { result ≡ s.shape_of raw next (l.is_literal tokens.now pairs.now at) }
{
    match raw {
        Raw::Paren => shape_of(raw, next, is_literal(tokens, pairs, at)),
        _ => shape_of(raw, next, false),
    }
}

/// The partner of the token at a number; 0 past the end.
fn partner_of(pairs: &[u32], at: usize) -> u32
    ensures { result ≡ b.partner_by (slice_get pairs.now at) }
{
    match pairs.get(at) {
        Some(partner) => *partner,
        None => 0,
    }
}

/// Whether a token is an identifier that is one of these names.
fn is_typedef(typedefs: &NameSet, raw: Raw, text: &Name) -> bool
    ensures { result ≡ l.typed_by raw (has typedefs.now text.now) }
{
    match raw {
        Raw::Word => typedefs.has(text),
        _ => false,
    }
}

/// A token as the grammar reads it, by its sort and that of the next one.
fn read_lexeme(
    alloc: Global,
    tokens: &[PpToken],
    pairs: &[u32],
    typedefs: &NameSet,
    token: &PpToken,
    at: usize,
    sort: Sort,
    next: Sort,
) -> Mem<Lexeme>
    requires sort { sort ≡ sort_of token.now }
    requires next { next ≡ l.sort_at tokens.now (at + 1) }
    ensures { IfOk result (λ it. it ≡ l.lexeme_of (has typedefs.now) pairs.now tokens.now at token.now) }
{
    let shape = shape_at(tokens, pairs, sort.raw, next.ahead, at);
    let typed = is_typedef(typedefs, sort.raw, &token.text);
    let text = token.text.duplicate(alloc)?;
    let partner = partner_of(pairs, at);
    Ok(Lexeme {
        shape,
        typed,
        partner,
        text,
    })
}

/// The tokens as the grammar reads them, where `pairs` are the partners of the brackets and these names are typedef names
/// before the first token.
#[tactic(auto, unfolding(crate::specs::Lexemes::lexemes))]
pub fn lexemes(
    alloc: Global,
    tokens: &[PpToken],
    pairs: &[u32],
    typedefs: &NameSet,
) -> Mem<Vec<Lexeme>>
    requires { length tokens.now < 2 ^ 32 }
    ensures { IfOk result (λ all. all.items ≡ l.lexemes (has typedefs.now) pairs.now tokens.now) }
{
    lexemes_to(
        alloc,
        Vec::new(alloc),
        tokens,
        pairs,
        typedefs,
        tokens.len(),
    )
}

/// The tokens up to one, after those that were read before: these names are typedef names before the first of the others.
pub fn lexemes_to(
    alloc: Global,
    read: Vec<Lexeme>,
    tokens: &[PpToken],
    pairs: &[u32],
    typedefs: &NameSet,
    to: usize,
) -> Mem<Vec<Lexeme>>
    requires short { length tokens.now < 2 ^ 32 }
    requires from { length read.items ≤ to }
    requires to { to ≤ length tokens.now }
    ensures { IfOk result (λ all. all.items ≡ l.lexemes_to (has typedefs.now) pairs.now tokens.now read.items to) }
{
    let mut all = read;
    let mut at = all.len();
    let mut sort = sort_at(tokens, at);
    for token in &tokens[at..to] {
        let next = sort_at(tokens, at + 1);
        let lexeme = read_lexeme(alloc, tokens, pairs, typedefs, token, at, sort, next)?;
        all.push(lexeme)?;
        sort = next;
        at += 1;
    }
    Ok(all)
}
