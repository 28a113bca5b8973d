//! Macro replacement in a run of tokens.

use crate::definitions::read;
use cl_base::{
    Config, Define, Duplicate, EmptyBase, LineTable, List, Mem, Name, Path, PpToken, Span, Text,
};
use cl_lex::lex;
use cl_macro::{Expanded, MacroTable};
use std::alloc::Global;

/// Adds the macro that a line behind `define` defines.
pub(crate) fn define(alloc: Global, table: &mut MacroTable, line: &[u8]) -> Mem<()> {
    if let Some(mac) = read(alloc, line)? {
        let _how = table.define(alloc, &EmptyBase, mac)?;
    }
    Ok(())
}

/// The tokens that a text comes to, with a space between two.
pub(crate) fn tokens(alloc: Global, table: &MacroTable, text: &[u8]) -> Mem<Vec<u8>> {
    let all = expansion(alloc, table, text)?;
    let mut out = Vec::new(alloc);
    for token in all.tokens.as_slice() {
        out.extend_from_slice(token.text.bytes())?;
        out.push(b' ')?;
    }
    let _last = out.pop();
    Ok(out)
}

/// The tokens that a text comes to, with a space where white space stands; then the faults, and the uses, each with its place
/// and the number of tokens before its outermost invocation.
pub(crate) fn told(alloc: Global, table: &MacroTable, text: &[u8]) -> Mem<Vec<u8>> {
    let all = expansion(alloc, table, text)?;
    let mut out = spaced(alloc, &all)?;
    out.extend_from_slice(b" |".as_slice())?;
    for fault in all.faults.as_slice() {
        let one = format!(in alloc; " !{}@{}-{}", fault.number, fault.at.from, fault.at.to)?;
        out.extend_from_slice(one.as_bytes())?;
    }
    for used in all.uses.as_slice() {
        let one = format!(in alloc; " {}-{}:{}", used.at.from, used.at.to, used.before)?;
        out.extend_from_slice(one.as_bytes())?;
    }
    Ok(out)
}

/// The tokens that a text comes to after the defines of the settings, one a line: a name, and behind a space its text.
pub(crate) fn started(alloc: Global, defines: &[u8], text: &[u8]) -> Mem<Vec<u8>> {
    let mut all = List::new(alloc);
    for line in defines.split(|byte| *byte == b'\n') {
        let mut parts = line.splitn(2, |byte| *byte == b' ');
        all.push(Define {
            name: Name::new(alloc, parts.next().unwrap_or(b""))?,
            text: Text::new(alloc, parts.next().unwrap_or(b""))?,
        })?;
    }
    let config = Config::new(alloc, List::new(alloc), all)?;
    let table = MacroTable::start(alloc, &config)?;
    let all = expansion(alloc, &table, text)?;
    spaced(alloc, &all)
}

fn spaced(alloc: Global, all: &Expanded) -> Mem<Vec<u8>> {
    let mut out = Vec::new(alloc);
    for token in all.tokens.as_slice() {
        if token.space && !out.is_empty() {
            out.push(b' ')?;
        }
        out.extend_from_slice(token.text.bytes())?;
    }
    Ok(out)
}

fn expansion(alloc: Global, table: &MacroTable, text: &[u8]) -> Mem<Expanded> {
    let run = run_of(alloc, text)?;
    let path = Path::new(alloc, "/a\"b.c")?;
    let lines = LineTable::new(alloc, text)?;
    let all = table.expand(alloc, &EmptyBase, run.as_slice(), &path, &lines)?;
    Ok(all)
}

/// The tokens of a text, each where it is written.
pub(crate) fn run_of(alloc: Global, text: &[u8]) -> Mem<List<PpToken>> {
    let lexed = lex(alloc, text)?;
    let mut run = List::new(alloc);
    for token in lexed.tokens.as_slice() {
        let at = Span {
            file: 0,
            from: token.from,
            to: token.to,
        };
        run.push(PpToken {
            kind: token.kind,
            text: token.text.duplicate(alloc)?,
            space: token.space,
            spell: Some(at),
            at,
        })?;
    }
    Ok(run)
}
