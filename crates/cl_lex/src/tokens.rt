//! Cuts a text into its tokens.

ghost use Rattle.std.specs.Prelude.{◌≡◌, ◌<◌, ◌≤◌, ◌+◌, ◌++◌, length, slice_index, slice_range, option_to_list, IfOk, OnOk};
ghost use Rattle.cl_lex.specs.Source.{characters, values};
ghost use Rattle.cl_lex.specs.code.Machine.{is_include_line, line_by};
ghost use Rattle.cl_lex.specs.Order.{AreInOrder};
ghost use Rattle.cl_lex.specs.Lexing.{Lexes, fault_of, faults_by, first_after, space_after, stray_faults, token_of, tokens_by};

use crate::bytes::is_quote;
use crate::item::{Item, ItemKind, Line};
use crate::next::next_item;
use crate::source::Source;
use cl_base::{Fault, Kind, Lexed, List, Mem, Memory, Token, char_len, spells_hash};
use std::alloc::Global;

/// The most bytes that a text to be cut may have: 2^28.
const MOST: usize = 268_435_456;

/// What stands before a place: which tokens are on the line, whether white space or a comment is right before, and
/// whether no token is on the line.
#[derive(Clone, Copy)]
pub struct Before {
    pub line: Line,
    pub space: bool,
    pub first: bool,
}

/// The tokens of a text by translation phases 1 to 3 (N1570 5.1.1.2), in order, and the faults 1 to 4: a comment
/// without an end (its first two characters), a quote that nothing closes on its line, a byte of no character, and a
/// null character (each the token's own bytes). More than 268,435,456 bytes are want of memory.
pub fn lex(alloc: Global, text: &[u8]) -> Mem<Lexed>
    ensures lexes { IfOk result (λ lexed. Lexes text.now lexed) }
    ensures order { IfOk result (λ lexed. AreInOrder 0 (length text.now) lexed.tokens) }
{
    if text.len() > MOST {
        return Err(Memory);
    }
    let source = Source::new(alloc, text)?;
    let lexed = lexed(alloc, &source)?;
    Ok(lexed)
}

/// The tokens and the faults of a source.
fn lexed(alloc: Global, source: &Source<'_>) -> Mem<Lexed>
    ensures { IfOk result (λ lexed. Lexes source.now lexed) }
{
    let chars = source.chars();
    let mut lexed = Lexed {
        tokens: List::new(alloc),
        faults: List::new(alloc),
    };
    let mut before = Before {
        line: Line::Start,
        space: false,
        first: true,
    };
    let mut at = 0;
    while at < chars.len() {
        let item = next_item(chars, at, takes_header(before.line));
        add(alloc, source, item, before, &mut lexed)?;
        before = after(chars, item, before);
        at = item.to;
    }
    Ok(lexed)
}

/// Whether a header name may be formed here (N1570 6.4p4).
fn takes_header(line: Line) -> bool
    ensures { result ≡ is_include_line line }
{
    matches!(line, Line::Include)
}

/// What stands before the next item.
fn after(chars: &[u8], item: Item, before: Before) -> Before
    requires order { item.from ≤ item.to }
    requires within { item.to ≤ length chars.now }
    ensures { result ≡ record {
      line = line_by before.line item.kind (slice_range chars.now item.from item.to);
      space = space_after item.kind;
      first = first_after item.kind before.first;
    } }
{
    let line = line_after(before.line, item.kind, &chars[item.from..item.to]);
    match item.kind {
        ItemKind::Token(_) => Before {
            line,
            space: false,
            first: false,
        },
        ItemKind::NewLine => Before {
            line,
            space: true,
            first: true,
        },
        ItemKind::Comment | ItemKind::OpenComment | ItemKind::Space => Before {
            line,
            space: true,
            first: before.first,
        },
    }
}

/// What stands on the line after an item that is spelled so.
fn line_after(before: Line, kind: ItemKind, text: &[u8]) -> Line
    ensures { result ≡ line_by before kind text.now }
{
    match (kind, before) {
        (ItemKind::NewLine, _) => Line::Start,
        (ItemKind::Token(Kind::Punct), Line::Start) if spells_hash(text) => Line::Hash,
        (ItemKind::Token(Kind::Ident), Line::Hash) if text == b"include".as_slice() => {
            Line::Include
        }
        (ItemKind::Token(_), _) => Line::Rest,
        (ItemKind::Comment | ItemKind::OpenComment | ItemKind::Space, before) => before,
    }
}

/// Adds what an item gives: its token, if it is one, and its fault, if it has one. After want of memory the list is as
/// before or has the token alone.
fn add(alloc: Global, source: &Source<'_>, item: Item, before: Before, lexed: &mut Lexed) -> Mem<()>
    requires order { item.from < item.to }
    requires within { item.to ≤ length (characters source.now) }
    requires open { item.kind ≡ ItemKind.OpenComment → item.from + 2 ≤ item.to }
    ensures tokens { OnOk result (lexed.new.tokens ≡ lexed.old.tokens ++ tokens_by (characters source.now) item.kind item before.space before.first) }
    ensures faults { OnOk result (lexed.new.faults ≡ lexed.old.faults ++ faults_by (characters source.now) item.kind item) }
{
    if let ItemKind::Token(kind) = item.kind {
        let token = token(alloc, source, kind, item, before)?;
        lexed.tokens.push(token)?;
    }
    if let Some(fault) = fault(source, item) {
        lexed.faults.push(fault)?;
    }
    Ok(())
}

/// The token that an item is.
fn token(alloc: Global, source: &Source<'_>, kind: Kind, item: Item, before: Before) -> Mem<Token>
    requires order { item.from < item.to }
    requires within { item.to ≤ length (characters source.now) }
    ensures { IfOk result (λ token. token ≡ token_of (characters source.now) kind item before.space before.first) }
{
    let text = source.name(alloc, item.from, item.to)?;
    Ok(Token {
        kind,
        text,
        from: source.begins(item.from),
        to: source.ends(item.to),
        space: before.space,
        first: before.first,
    })
}

/// The fault that an item has, if it has one.
fn fault(source: &Source<'_>, item: Item) -> Option<Fault>
    requires order { item.from < item.to }
    requires within { item.to ≤ length (characters source.now) }
    requires open { item.kind ≡ ItemKind.OpenComment → item.from + 2 ≤ item.to }
    ensures { option_to_list result ≡ faults_by (characters source.now) item.kind item }
{
    match item.kind {
        ItemKind::Token(Kind::Other) => stray_fault(source, item),
        ItemKind::OpenComment => Some(fault_at(source, 1, item.from, item.from + 2)),
        _ => None,
    }
}

/// The fault that an Other token has, if it has one.
fn stray_fault(source: &Source<'_>, item: Item) -> Option<Fault>
    requires order { item.from < item.to }
    requires within { item.to ≤ length (characters source.now) }
    ensures { option_to_list result ≡ stray_faults (characters source.now) (slice_index (values (characters source.now)) item.from) item }
{
    let chars = source.chars();
    let first = chars[item.from];
    if is_quote(first) {
        Some(fault_at(source, 2, item.from, item.to))
    } else if char_len(chars, item.from) == 0 {
        Some(fault_at(source, 3, item.from, item.to))
    } else if first == 0 {
        Some(fault_at(source, 4, item.from, item.to))
    } else {
        None
    }
}

/// A fault from one character up to, and without, another.
fn fault_at(source: &Source<'_>, number: u8, from: usize, to: usize) -> Fault
    requires order { from < to }
    requires within { to ≤ length (characters source.now) }
    ensures { result ≡ fault_of (characters source.now) number from to }
{
    Fault {
        number,
        from: source.begins(from),
        to: source.ends(to),
    }
}
