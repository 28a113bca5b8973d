//! Constants and string literals as tokens, and their faults.

use cl_base::{Kind, List, Mem, Name, PpToken, Span};
use cl_cases::unescaped;
use cl_conv::of_basic;
use cl_literals::{
    NumberConstant, char_value, elements, faults, literal_prefix, number, prefix_of,
};
use cl_print::print;
use cl_types::Basic;
use std::alloc::Global;

fn name_of(alloc: Global, basic: Basic) -> Mem<String> {
    print(alloc, &of_basic(basic), "")
}

/// The value and the type of a number.
pub(crate) fn number_of(alloc: Global, text: &str) -> Mem<String> {
    match number(text.as_bytes()) {
        NumberConstant::Integer { value, ty } => {
            let name = name_of(alloc, ty)?;
            let shown = format!(in alloc; "{value} {name}")?;
            Ok(shown)
        }
        NumberConstant::Floating(ty) => name_of(alloc, ty),
        NumberConstant::TooLarge => Ok(String::from_str(alloc, "too large")?),
        NumberConstant::NoConstant => Ok(String::from_str(alloc, "none")?),
    }
}

/// The value and the type of a character constant.
pub(crate) fn character_of(alloc: Global, text: &str) -> Mem<String> {
    let bytes = unescaped(alloc, text)?;
    let name = name_of(alloc, prefix_of(bytes.as_slice()).char_type())?;
    match char_value(bytes.as_slice()) {
        Some(value) => {
            let shown = format!(in alloc; "{value} {name}")?;
            Ok(shown)
        }
        None => {
            let shown = format!(in alloc; "? {name}")?;
            Ok(shown)
        }
    }
}

fn kind_of(word: &str) -> Kind {
    match word.as_bytes() {
        [b'0'..=b'9' | b'.', ..] => Kind::Number,
        [_, .., b'"'] => Kind::Str,
        [_, .., b'\''] => Kind::Char,
        [b'a'..=b'z' | b'A'..=b'Z', ..] => Kind::Ident,
        [b'+' | b';' | b',' | b'(' | b')'] => Kind::Punct,
        _ => Kind::Other,
    }
}

/// The tokens of a line: words with a space between them, numbered from 0. The kind of each is told by its ends.
fn tokens_of(alloc: Global, line: &str) -> Mem<List<PpToken>> {
    let mut tokens = List::new(alloc);
    let mut number: u32 = 0;
    for word in line.split(' ') {
        let bytes = unescaped(alloc, word)?;
        let text = Name::new(alloc, bytes.as_slice())?;
        let at = Span {
            file: 0,
            from: number,
            to: number,
        };
        tokens.push(PpToken {
            kind: kind_of(word),
            text,
            space: false,
            spell: None,
            at,
        })?;
        number = number.saturating_add(1);
    }
    Ok(tokens)
}

/// The type and the count of the elements of adjacent string literals.
pub(crate) fn string_of(alloc: Global, line: &str) -> Mem<String> {
    let tokens = tokens_of(alloc, line)?;
    let prefix = literal_prefix(tokens.as_slice());
    let name = name_of(alloc, prefix.element_type())?;
    let count = elements(prefix.unit(), tokens.as_slice()).unwrap_or(0);
    let shown = format!(in alloc; "{count} {name}")?;
    Ok(shown)
}

/// The faults of tokens, each with the number of its token.
pub(crate) fn faults_of(alloc: Global, line: &str) -> Mem<String> {
    let tokens = tokens_of(alloc, line)?;
    let found = faults(alloc, tokens.as_slice())?;
    let mut shown = String::new(alloc);
    for diag in found.as_slice() {
        let one = format!(in alloc; "{}@{};", diag.number, diag.at.from)?;
        shown.push_str(one.as_str())?;
    }
    Ok(shown)
}
