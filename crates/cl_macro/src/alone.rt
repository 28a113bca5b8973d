//! Names whose work goes on alike wherever they stand.

ghost use Rattle.std.specs.Prelude.{◌≡◌, ◌&&◌, [], true, ℕ, List, Option, IfOk, OnOk};
ghost use Rattle.cl_base.specs.declared.token.Kind.{Kind as TheKind};
ghost use Rattle.cl_macro.specs.Pasting.{joined_body};
ghost use Rattle.cl_macro.specs.Rules.{TellsTokens};
ghost use Rattle.cl_macro.specs.Table.{macro_of};
ghost use Rattle.cl_macro.specs.Words.{contains, is_ident};
ghost use Rattle.cl_macro.specs.code.Flat.{IsAlone, Remembers, are_flat, are_tame, is_flat, is_object, is_tame};

use crate::base::MacroBase;
use crate::body::{Args, joined_body};
use crate::hide::has;
use crate::made::{is_file, is_line};
use crate::table::MacroTable;
use crate::word::{Word, is_ident};
use cl_base::{Duplicate, List, Macro, Mem, Name, PpToken};
use std::alloc::Global;

/// The most names that are looked at.
const MOST_NAMES: usize = 256;

/// Whether the token is one of these names.
pub(crate) fn is_one_of(names: &[Name], token: &PpToken) -> bool
    ensures { result ≡ (is_ident token.now.kind && contains names.now token.now.text) }
{
    is_ident(token.kind) && has(names, &token.text)
}

/// What an object-like macro is replaced by, wherever it stands.
fn body_of(alloc: Global, mac: &Macro) -> Mem<List<Word>>
    ensures { (one_token : List ℕ → Option TheKind) → TellsTokens one_token → IfOk result (λ words. words ≡ (joined_body one_token mac.now [] []).words) }
{
    let none = List::new(alloc);
    let args = Args {
        mac,
        raw: &none,
        full: &none,
    };
    let mut notes = List::new(alloc);
    let words = joined_body(alloc, &args, &mut notes)?;
    Ok(words)
}

fn is_tame(names: &[Name], word: &Word) -> bool
    ensures { result ≡ is_tame names.now word.now }
{
    !is_ident(word.token.kind) || has(names, &word.token.text)
}

fn are_tame(names: &[Name], words: &[Word]) -> bool
    ensures { result ≡ are_tame names.now words.now }
{
    let mut rest = words;
    while let Some((word, behind)) = rest.split_first() {
        rest = behind;
        if !is_tame(names, word) {
            return false;
        }
    }
    true
}

fn is_object(mac: &Macro) -> bool
    ensures { result ≡ is_object mac.now }
{
    !mac.params.is_some() && !is_file(mac) && !is_line(mac)
}

/// Whether a macro is object-like and makes no names but these.
fn is_flat(alloc: Global, names: &[Name], mac: &Macro) -> Mem<bool>
    ensures { (one_token : List ℕ → Option TheKind) → TellsTokens one_token → IfOk result (λ flat. flat ≡ is_flat one_token names.now mac.now) }
{
    if !is_object(mac) {
        return Ok(false);
    }
    let words = body_of(alloc, mac)?;
    Ok(are_tame(names, words.as_slice()))
}

/// Whether the macros of all these names are object-like and make no names but these.
fn are_flat<B: MacroBase>(alloc: Global, table: &MacroTable, base: &B, names: &[Name]) -> Mem<bool>
    ensures { (one_token : List ℕ → Option TheKind) → TellsTokens one_token → IfOk result (λ flat. flat ≡ are_flat one_token (macro_of table.now (B.macros base.now)) names.now names.now) }
{
    let mut rest = names;
    while let Some((name, behind)) = rest.split_first() {
        rest = behind;
        if let Some(mac) = table.find(alloc, base, name)? {
            let flat = is_flat(alloc, names, mac.get())?;
            if !flat {
                return Ok(false);
            }
        }
    }
    Ok(true)
}

/// Adds the names in what a macro is replaced by, up to the most.
fn add_names(alloc: Global, names: &mut List<Name>, mac: &Macro) -> Mem<()> {
    let words = body_of(alloc, mac)?;
    for word in words.as_slice() {
        if names.len() >= MOST_NAMES {
            return Ok(());
        }
        if !is_tame(names.as_slice(), word) {
            names.push(word.token.text.duplicate(alloc)?)?;
        }
    }
    Ok(())
}

/// The names that a name leads to, as far as they are looked for: `are_flat` tells whether they are all.
fn reached<B: MacroBase>(
    alloc: Global,
    table: &MacroTable,
    base: &B,
    name: &Name,
) -> Mem<List<Name>> {
    let mut names = List::new(alloc);
    names.push(name.duplicate(alloc)?)?;
    for i in 0..MOST_NAMES {
        let Some(next) = names.get(i) else {
            return Ok(names);
        };
        let next = next.duplicate(alloc)?;
        if let Some(mac) = table.find(alloc, base, &next)? {
            add_names(alloc, &mut names, mac.get())?;
        }
    }
    Ok(names)
}

/// Whether what comes of the name is known to hang neither on its place nor on what follows it.
fn is_alone<B: MacroBase>(alloc: Global, table: &MacroTable, base: &B, name: &Name) -> Mem<bool>
    ensures { (one_token : List ℕ → Option TheKind) → TellsTokens one_token → IfOk result (λ alone. alone ≡ true → IsAlone one_token (macro_of table.now (B.macros base.now)) name.now) }
{
    let names = reached(alloc, table, base, name)?;
    let one = has(names.as_slice(), name);
    if !one {
        return Ok(false);
    }
    let flat = are_flat(alloc, table, base, names.as_slice())?;
    Ok(flat)
}

/// Adds the name of a token that comes to too much, where it does so wherever it stands.
pub(crate) fn remember<B: MacroBase>(
    alloc: Global,
    table: &MacroTable,
    base: &B,
    large: &mut List<Name>,
    token: &PpToken,
) -> Mem<()>
    ensures { (one_token : List ℕ → Option TheKind) → TellsTokens one_token → OnOk result (Remembers one_token (macro_of table.now (B.macros base.now)) token.now large.old large.new) }
{
    let ident = is_ident(token.kind);
    if !ident {
        return Ok(());
    }
    let alone = is_alone(alloc, table, base, &token.text)?;
    if !alone {
        return Ok(());
    }
    let name = token.text.duplicate(alloc)?;
    large.push(name)?;
    Ok(())
}
