//! Reads the items of a file.

ghost use Rattle.std.specs.Prelude.{◌≡◌, ◌<◌, ◌≤◌, ◌^◌, ◌-◌, [], Some, length, take, IfOk, IfSome};
ghost use Rattle.cl_tree.specs.Brackets.{bad_extent};
ghost use Rattle.cl_tree.specs.Derives.{External, end};
ghost use Rattle.cl_tree.specs.Scopes.{empty};
ghost use Rattle.cl_tree.specs.Sets.{has};
ghost use Rattle.cl_tree.specs.declared.scope.Scope.{Scope as TheScope};
ghost use Rattle.cl_tree.specs.declared.tree.Tree.{Tree as TheTree};
ghost use Rattle.cl_parse.specs.Extents.{Extent};
ghost use Rattle.cl_parse.specs.Items.{IsProper, ItemTiles, ItemsOf};
ghost use Rattle.cl_parse.specs.code.Ahead.{AreNamed, Covers};
ghost use Rattle.cl_parse.specs.code.Marks.{AreMarks, Ends};
ghost use Rattle.cl_parse.specs.code.Reading.{IsDead, IsExtended, IsNext, IsSettled, Reads, before};

use crate::ahead::Places;
use crate::extent::past_stop;
use crate::item::Item;
use crate::marks::Marks;
use cl_base::{List, Mem, Memory, PpToken};
use cl_expr::{Parsed, parse_external, specifiers_before};
use cl_tree::{Change, Lexeme, NameSet, SharedScope, bad_extent, brackets, learned, lexemes_to};
use std::alloc::Global;

/// The most tokens: 2^32 - 5.
const MOST: usize = 0xffff_fffb;

/// How far a file has been read: which names are typedef names before the token `at`, the tokens up to some place as the
/// grammar reads them, those from `at` on with these names, where the next item ends, and where identifiers stand among the
/// tokens ahead.
#[derive(Drop)]
pub(crate) struct Reading {
    pub(crate) names: NameSet,
    pub(crate) ahead: Vec<Lexeme>,
    pub(crate) at: usize,
    pub(crate) marks: Marks,
    pub(crate) places: Places,
}

/// A next item, how far the file is read behind it, and an end up to which no external declaration derives from there on; 0
/// where none is known.
#[derive(Drop)]
pub(crate) struct Next {
    pub(crate) item: Item,
    pub(crate) reading: Reading,
    pub(crate) dead: usize,
}

/// The items of these tokens, in order, where these names are typedef names before the first. 2^32 - 4 tokens or more are
/// want of memory.
pub fn items(alloc: Global, tokens: &[PpToken], typedefs: NameSet) -> Mem<List<Item>>
    ensures { IfOk result (ItemsOf (has typedefs) tokens.now) }
{
    if tokens.len() > MOST {
        return Err(Memory);
    }
    let pairs = brackets(alloc, tokens)?;
    let items = tiles(alloc, tokens, &pairs, typedefs)?;
    Ok(items)
}

/// The same, where these are the partners of the brackets.
fn tiles(alloc: Global, tokens: &[PpToken], pairs: &List<u32>, typedefs: NameSet) -> Mem<List<Item>>
    requires room { length tokens.now < 2 ^ 32 - 4 }
    ensures { IfOk result (ItemTiles tokens.now pairs.now (has typedefs) []) }
{
    let mut items = List::new(alloc);
    let mut reading = Reading {
        names: typedefs,
        ahead: Vec::new(alloc),
        at: 0,
        marks: Marks::new(tokens, pairs.as_slice(), 0),
        places: Places::new(alloc),
    };
    let mut dead = 0;
    while reading.at < tokens.len() {
        let next = next_item(alloc, tokens, pairs, reading, dead)?;
        items.push(next.item)?;
        reading = next.reading;
        dead = next.dead;
    }
    Ok(items)
}

/// The next item.
fn next_item(
    alloc: Global,
    tokens: &[PpToken],
    pairs: &List<u32>,
    reading: Reading,
    dead: usize,
) -> Mem<Next>
    requires room { length tokens.now < 2 ^ 32 - 4 }
    requires some { reading.at < length tokens.now }
    requires reads { Reads tokens.now pairs.now reading }
    requires dead { IsDead reading dead }
    ensures { IfOk result (IsNext tokens.now pairs.now reading) }
{
    let partners = pairs.as_slice();
    let to = extent_end(tokens, partners, reading.marks);
    if to == dead {
        let next = passed(alloc, tokens, pairs, reading, to)?;
        return Ok(next);
    }
    let read = extended(alloc, tokens, partners, reading, to)?;
    let found = external(alloc, &read, to)?;
    match found {
        Some(parsed) => {
            let next = proper(alloc, tokens, partners, read, parsed, to)?;
            Ok(next)
        }
        None => {
            let next = passed(alloc, tokens, pairs, read, to)?;
            Ok(next)
        }
    }
}

/// The end of the extent of the item that begins where the marks do.
fn extent_end(tokens: &[PpToken], pairs: &[u32], marks: Marks) -> usize
    requires room { length tokens.now < 2 ^ 32 - 4 }
    requires some { marks.from < length tokens.now }
    requires marks { AreMarks tokens.now pairs.now marks }
    ensures extent { Extent tokens.now pairs.now marks.from result }
    ensures more { marks.from < result }
    ensures within { result ≤ length tokens.now }
    ensures depth { Ends pairs.now (length tokens.now) marks.from result }
{
    let stop = marks.stop(tokens, pairs);
    past_stop(tokens, pairs, stop)
}

/// The external declaration that the tokens from the next item on, up to one, derive as.
fn external(alloc: Global, reading: &Reading, to: usize) -> Mem<Option<Parsed>>
    requires at { reading.now.at < 2 ^ 32 }
    requires within { to ≤ length reading.now.ahead.items }
    ensures found { IfOk result (λ it. IfSome it (λ r. External (take to reading.now.ahead.items) empty reading.now.at r.tree r.scope)) }
    ensures only { IfOk result (λ it. (t : TheTree) (w : TheScope) → External (take to reading.now.ahead.items) empty reading.now.at t w → it ≡ Some (record { tree = t; scope = w })) }
{
    let lexemes = &reading.ahead.as_slice()[..to];
    let found = parse_external(alloc, lexemes, &SharedScope::new(), reading.at as u32)?;
    Ok(found)
}

/// The same, with the tokens read at least up to one.
fn extended(
    alloc: Global,
    tokens: &[PpToken],
    pairs: &[u32],
    reading: Reading,
    to: usize,
) -> Mem<Reading>
    requires room { length tokens.now < 2 ^ 32 - 4 }
    requires within { to ≤ length tokens.now }
    requires reads { Reads tokens.now pairs.now reading }
    ensures { IfOk result (IsExtended tokens.now pairs.now reading to) }
{
    if reading.ahead.len() >= to {
        return Ok(reading);
    }
    let names = reading.names;
    let ahead = lexemes_to(alloc, reading.ahead, tokens, pairs, &names, to)?;
    Ok(Reading {
        names,
        ahead,
        at: reading.at,
        marks: reading.marks,
        places: reading.places,
    })
}

/// A proper item, with its tree and what is declared behind it.
fn proper(
    alloc: Global,
    tokens: &[PpToken],
    pairs: &[u32],
    reading: Reading,
    parsed: Parsed,
    to: usize,
) -> Mem<Next>
    requires room { length tokens.now < 2 ^ 32 - 4 }
    requires reads { Reads tokens.now pairs.now reading }
    requires is { IsProper tokens.now pairs.now (has reading.names) (before reading) parsed.tree parsed.scope }
    requires within { to ≤ length reading.ahead.items }
    requires end { end parsed.tree ≡ to }
    requires some { reading.at < to }
    requires depth { Ends pairs.now (length tokens.now) reading.at to }
    ensures { IfOk result (IsNext tokens.now pairs.now reading) }
{
    let marks = reading.marks.moved(tokens, pairs, to);
    let Parsed { tree, scope } = parsed;
    let changes = scope.changes();
    let reading = settled(alloc, reading, changes, to, marks)?;
    Ok(Next {
        item: Item::Proper(tree),
        reading,
        dead: 0,
    })
}

/// What is read behind a proper item. Where it changes no names, the tokens ahead are as they were; else the names that it
/// changes are told anew among them.
fn settled(
    alloc: Global,
    reading: Reading,
    changes: &[Change],
    to: usize,
    marks: Marks,
) -> Mem<Reading>
    requires short { length reading.ahead.items < 2 ^ 32 }
    requires within { to ≤ length reading.ahead.items }
    requires named { AreNamed (has reading.names) reading.ahead.items to }
    requires covers { Covers reading.places reading.ahead.items to }
    ensures { IfOk result (IsSettled reading changes.now to marks) }
{
    if changes.is_empty() {
        return Ok(Reading {
            names: reading.names,
            ahead: reading.ahead,
            at: to,
            marks,
            places: reading.places,
        });
    }
    let names = learned(
        alloc,
        reading.names,
        &reading.ahead.as_slice()[..to],
        changes,
    )?;
    let places = reading.places.kept(alloc, reading.ahead.as_slice(), to)?;
    let ahead = places.learned(alloc, &names, reading.ahead, changes, to)?;
    Ok(Reading {
        names,
        ahead,
        at: to,
        marks,
        places,
    })
}

/// A bad item, whose extent ends there.
fn passed(
    alloc: Global,
    tokens: &[PpToken],
    pairs: &List<u32>,
    reading: Reading,
    to: usize,
) -> Mem<Next>
    requires room { length tokens.now < 2 ^ 32 - 4 }
    requires some { reading.at < length tokens.now }
    requires reads { Reads tokens.now pairs.now reading }
    requires more { reading.at < to }
    requires extent { Extent tokens.now pairs.now reading.at to }
    requires none { (t : TheTree) (w : TheScope) → IsProper tokens.now pairs.now (has reading.names) (before reading) t w → ⊥ }
    ensures { IfOk result (IsNext tokens.now pairs.now reading) }
{
    let past = bad_extent(tokens, pairs, reading.at as u32, tokens.len() as u32);
    let partners = pairs.as_slice();
    let read = extended(alloc, tokens, partners, reading, past as usize)?;
    let dead = failing(alloc, &read, past, to)?;
    Ok(bad(tokens, partners, read, past, dead))
}

/// That end, if what stands between two tokens may stand before any external declaration that derives from the second on up
/// to there; else 0.
fn failing(alloc: Global, reading: &Reading, past: u32, to: usize) -> Mem<usize>
    requires at { reading.now.at < 2 ^ 32 }
    ensures { IfOk result (λ dead. past < dead → (dead ≡ to) × (dead ≤ length reading.now.ahead.items) × ((t : TheTree) (w : TheScope) → External (take dead reading.now.ahead.items) empty past t w → (u : TheTree) × External (take dead reading.now.ahead.items) empty reading.now.at u w)) }
{
    if past as usize >= to || to > reading.ahead.len() {
        return Ok(0);
    }
    let lexemes = &reading.ahead.as_slice()[..to];
    let before = specifiers_before(alloc, lexemes, reading.at as u32, past)?;
    if before { Ok(to) } else { Ok(0) }
}

/// A bad item that ends there, where no external declaration derives behind it up to an end.
fn bad(tokens: &[PpToken], pairs: &[u32], reading: Reading, to: u32, dead: usize) -> Next
    requires room { length tokens.now < 2 ^ 32 - 4 }
    requires some { reading.at < length tokens.now }
    requires reads { Reads tokens.now pairs.now reading }
    requires none { (t : TheTree) (w : TheScope) → IsProper tokens.now pairs.now (has reading.names) (before reading) t w → ⊥ }
    requires end { to ≡ bad_extent tokens.now pairs.now reading.at (length tokens.now) }
    requires ahead { to ≤ length reading.ahead.items }
    requires dead { to < dead → (dead ≤ length reading.ahead.items) × ((t : TheTree) (w : TheScope) → External (take dead reading.ahead.items) empty to t w → ⊥) }
    ensures { IsNext tokens.now pairs.now reading result }
{
    let marks = reading.marks.moved(tokens, pairs, to as usize);
    Next {
        item: Item::Bad(reading.at as u32, to),
        reading: Reading {
            names: reading.names,
            ahead: reading.ahead,
            at: to as usize,
            marks,
            places: reading.places,
        },
        dead,
    }
}
