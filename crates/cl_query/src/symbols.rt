//! The symbols of a text.

ghost use Rattle.std.specs.Prelude.{◌≡◌, ◌<◌, ◌^◌, ◌==◌, ◌++◌, ◌∷◌, [], if◌then◌else◌, length, max, min, slice_range, IfOk, OnOk};
ghost use Rattle.std.specs.List.{flat_map};
ghost use Rattle.cl_query.specs.Symbols as s;
ghost use Rattle.cl_query.specs.code.Places.{AllStand, IsRanged};

use crate::landmarks::Landmarks;
use cl_base::{List, Mem, PpToken, Range, Span, Symbol, Text};
use cl_outline::{Mention, Sort, outline};
use cl_parse::Item;
use std::alloc::Global;

/// An item, by its first token and the one behind its last, and its range.
#[derive(Clone, Copy)]
pub(crate) struct Ranged {
    from: u32,
    to: u32,
    range: Range,
}

/// The symbols of a text of these tokens and items, in order.
pub(crate) fn symbols(
    alloc: Global,
    text: &[u8],
    tokens: &[PpToken],
    items: &[Item],
) -> Mem<List<Symbol>>
    requires room { length text.now < 2 ^ 32 }
    ensures { IfOk result (λ symbols. symbols ≡ s.symbols_in text.now tokens.now items.now) }
{
    let mentions = outline(alloc, tokens, items)?;
    let landmarks = Landmarks::new(alloc, text)?;
    let symbols = listed(alloc, text, tokens, &landmarks, mentions.as_slice())?;
    Ok(symbols)
}

/// Those of declarations. An item's range is found once for all that it declares.
fn listed(
    alloc: Global,
    text: &[u8],
    tokens: &[PpToken],
    landmarks: &Landmarks,
    mentions: &[Mention],
) -> Mem<List<Symbol>>
    requires room { length text.now < 2 ^ 32 }
    requires stands { AllStand text.now landmarks.now.cursors }
    ensures { IfOk result (λ symbols. symbols ≡ flat_map (s.symbols_for text.now tokens.now) mentions.now) }
{
    let mut symbols = List::new(alloc);
    let mut item = item_at(text, tokens, landmarks, 0, 0);
    for mention in mentions {
        item = next_range(text, tokens, landmarks, item, *mention);
        add_symbol(
            alloc,
            &mut symbols,
            text,
            tokens,
            landmarks,
            *mention,
            item.range,
        )?;
    }
    Ok(symbols)
}

/// The range of a declaration's item, which may be the one before.
fn next_range(
    text: &[u8],
    tokens: &[PpToken],
    landmarks: &Landmarks,
    item: Ranged,
    mention: Mention,
) -> Ranged
    requires room { length text.now < 2 ^ 32 }
    requires stands { AllStand text.now landmarks.now.cursors }
    requires range { IsRanged text.now tokens.now item }
    ensures range { IsRanged text.now tokens.now result }
    ensures from { result.from ≡ mention.from }
    ensures to { result.to ≡ mention.to }
{
    if item.from == mention.from && item.to == mention.to {
        item
    } else {
        item_at(text, tokens, landmarks, mention.from, mention.to)
    }
}

/// The range of the item of these tokens.
fn item_at(text: &[u8], tokens: &[PpToken], landmarks: &Landmarks, from: u32, to: u32) -> Ranged
    requires room { length text.now < 2 ^ 32 }
    requires stands { AllStand text.now landmarks.now.cursors }
    ensures range { IsRanged text.now tokens.now result }
    ensures from { result.from ≡ from }
    ensures to { result.to ≡ to }
{
    let place = hull(text.len() as u32, tokens, from, to);
    Ranged {
        from,
        to,
        range: landmarks.range(text, place.from, place.to),
    }
}

/// From the least to the greatest offset of the tokens from one to another that stand in the document.
fn hull(end: u32, tokens: &[PpToken], from: u32, to: u32) -> Span
    ensures from { result.from ≡ s.least end (slice_range tokens.now from to) }
    ensures to { result.to ≡ s.greatest 0 (slice_range tokens.now from to) }
{
    let mut at = from as usize;
    let mut least = end;
    let mut greatest = 0;
    while at < tokens.len() && at < to as usize {
        let place = tokens[at].at;
        least = lesser(least, place);
        greatest = greater(greatest, place);
        at += 1;
    }
    Span {
        file: 0,
        from: least,
        to: greatest,
    }
}

fn lesser(offset: u32, at: Span) -> u32
    ensures { result ≡ (if at.file == 0 then min offset at.from else offset) }
{
    if at.file == 0 && at.from < offset {
        at.from
    } else {
        offset
    }
}

fn greater(offset: u32, at: Span) -> u32
    ensures { result ≡ (if at.file == 0 then max offset at.to else offset) }
{
    if at.file == 0 && at.to > offset {
        at.to
    } else {
        offset
    }
}

/// Adds the symbol of a declaration, if its name stands in the document.
fn add_symbol(
    alloc: Global,
    symbols: &mut List<Symbol>,
    text: &[u8],
    tokens: &[PpToken],
    landmarks: &Landmarks,
    mention: Mention,
    range: Range,
) -> Mem<()>
    requires room { length text.now < 2 ^ 32 }
    requires stands { AllStand text.now landmarks.now.cursors }
    requires range { range ≡ s.item_range text.now tokens.now mention.from mention.to }
    ensures { OnOk result (symbols.new ≡ symbols.old ++ s.symbols_for text.now tokens.now mention) }
{
    match tokens.get(mention.at as usize) {
        Some(name) => add_named(alloc, symbols, text, landmarks, mention, range, name),
        None => Ok(()),
    }
}

/// Adds the symbol of a declaration with this name, if that stands in the document.
fn add_named(
    alloc: Global,
    symbols: &mut List<Symbol>,
    text: &[u8],
    landmarks: &Landmarks,
    mention: Mention,
    range: Range,
    name: &PpToken,
) -> Mem<()>
    requires room { length text.now < 2 ^ 32 }
    requires stands { AllStand text.now landmarks.now.cursors }
    ensures { OnOk result (symbols.new ≡ symbols.old ++ (if name.now.at.file == 0 then s.symbol_by text.now range mention name.now ∷ [] else [])) }
{
    if name.at.file != 0 {
        return Ok(());
    }
    let symbol = symbol_by(alloc, text, landmarks, mention, range, name)?;
    symbols.push(symbol)
}

/// The symbol of a declaration with this name, in an item of this range.
#[tactic(auto, unfolding(crate::specs::Symbols::symbol_by))]
fn symbol_by(
    alloc: Global,
    text: &[u8],
    landmarks: &Landmarks,
    mention: Mention,
    range: Range,
    name: &PpToken,
) -> Mem<Symbol>
    requires room { length text.now < 2 ^ 32 }
    requires stands { AllStand text.now landmarks.now.cursors }
    ensures { IfOk result (λ symbol. symbol ≡ s.symbol_by text.now range mention name.now) }
{
    let place = written(name);
    let selection = landmarks.range(text, place.from, place.to);
    let shown = Text::new(alloc, name.text.bytes())?;
    Ok(Symbol {
        kind: kind_of(mention.sort),
        name: shown,
        range,
        selection,
        children: List::new(alloc),
    })
}

/// Where a token is written, if that is in the document, and else where it stands.
fn written(token: &PpToken) -> Span
    ensures { result ≡ s.written_by token.now.spell token.now.at }
{
    match token.spell {
        Some(spell) => { if spell.file == 0 { spell } else { token.at } }
        None => token.at,
    }
}

/// LSP's SymbolKind (LSP 3.17, SymbolKind).
fn kind_of(sort: Sort) -> u8
    ensures { result ≡ s.kind_of sort }
{
    match sort {
        Sort::Function => 12,
        Sort::Object => 13,
        Sort::Typedef => 26,
        Sort::Structure => 23,
        Sort::Enumeration => 10,
    }
}
