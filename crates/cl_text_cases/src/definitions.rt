//! What a `define` line defines.

use cl_base::{List, Macro, Mem, Name, Span};
use cl_define::{is_same, object_like, read_define};
use cl_lex::lex;
use std::alloc::Global;

/// A place for the name of a macro.
pub(crate) const NAME_PLACE: Span = Span {
    file: 3,
    from: 8,
    to: 9,
};

/// The macro of the tokens behind a `define`.
pub(crate) fn read(alloc: Global, line: &[u8]) -> Mem<Option<Macro>> {
    let lexed = lex(alloc, line)?;
    read_define(alloc, lexed.tokens.as_slice(), NAME_PLACE)
}

/// The macro that a line defines: its name, its parameters, and its replacement list behind a bar, with a space where white
/// space stands; `-` where it defines none.
pub(crate) fn macro_of(alloc: Global, line: &[u8]) -> Mem<Vec<u8>> {
    let found = read(alloc, line)?;
    shown(alloc, &found)
}

/// Whether two definitions are the same, in both orders.
pub(crate) fn same(alloc: Global, line: &[u8], other: &[u8]) -> Mem<Vec<u8>> {
    let mut out = Vec::new(alloc);
    let words = match (read(alloc, line)?, read(alloc, other)?) {
        (Some(a), Some(b)) => match (is_same(&a, &b), is_same(&b, &a)) {
            (true, true) => "yes",
            (false, false) => "no",
            _ => "not the same both ways",
        },
        _ => "no macros",
    };
    out.extend_from_slice(words.as_bytes())?;
    Ok(out)
}

/// The macro that a name and a list of tokens of the settings make.
pub(crate) fn setting(alloc: Global, name: &[u8], list: &[u8]) -> Mem<Vec<u8>> {
    let name = Name::new(alloc, name)?;
    let lexed = lex(alloc, list)?;
    let found = object_like(alloc, &name, lexed.tokens.as_slice())?;
    shown(alloc, &found)
}

fn shown(alloc: Global, found: &Option<Macro>) -> Mem<Vec<u8>> {
    let mut text = Vec::new(alloc);
    let Some(mac) = found else {
        text.push(b'-')?;
        return Ok(text);
    };
    text.extend_from_slice(mac.name.bytes())?;
    if let Some(names) = &mac.params {
        push_params(&mut text, names, mac.variadic)?;
    }
    text.push(b'|')?;
    for token in mac.body.as_slice() {
        if token.space {
            text.push(b' ')?;
        }
        text.extend_from_slice(token.text.bytes())?;
    }
    Ok(text)
}

fn push_params(text: &mut Vec<u8>, names: &List<Name>, variadic: bool) -> Mem<()> {
    text.push(b'(')?;
    for (i, name) in names.as_slice().iter().enumerate() {
        if i > 0 {
            text.push(b',')?;
        }
        text.extend_from_slice(name.bytes())?;
    }
    if variadic {
        if !names.is_empty() {
            text.push(b',')?;
        }
        text.extend_from_slice(b"...".as_slice())?;
    }
    text.push(b')')?;
    Ok(())
}
