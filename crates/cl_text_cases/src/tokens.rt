//! Tokens as `lex` gives them.

use cl_base::{Kind, Mem};
use cl_lex::{lex, one_token};
use std::alloc::Global;

/// The tokens of a text, each as its kind's letter, its spelling, its place, `s` after white space and `f` at the first of a
/// line; and then the faults.
pub(crate) fn all(alloc: Global, text: &[u8]) -> Mem<Vec<u8>> {
    let lexed = lex(alloc, text)?;
    let mut out = Vec::new(alloc);
    for token in lexed.tokens.as_slice() {
        out.push(letter(token.kind))?;
        out.extend_from_slice(token.text.bytes())?;
        let place = format!(in alloc; "@{}-{}", token.from, token.to)?;
        out.extend_from_slice(place.as_bytes())?;
        if token.space {
            out.push(b's')?;
        }
        if token.first {
            out.push(b'f')?;
        }
        out.push(b' ')?;
    }
    for fault in lexed.faults.as_slice() {
        let shown = format!(in alloc; "!{}@{}-{} ", fault.number, fault.from, fault.to)?;
        out.extend_from_slice(shown.as_bytes())?;
    }
    let _last = out.pop();
    Ok(out)
}

/// The letter of the kind of the one token that the characters are, `-` where they are none.
pub(crate) fn one(alloc: Global, spelling: &[u8]) -> Mem<Vec<u8>> {
    let mut out = Vec::new(alloc);
    out.push(match one_token(spelling) {
        Some(kind) => letter(kind),
        None => b'-',
    })?;
    Ok(out)
}

fn letter(kind: Kind) -> u8 {
    match kind {
        Kind::Ident => b'I',
        Kind::Number => b'N',
        Kind::Char => b'C',
        Kind::Str => b'S',
        Kind::Header => b'H',
        Kind::Punct => b'P',
        Kind::Other => b'O',
    }
}
