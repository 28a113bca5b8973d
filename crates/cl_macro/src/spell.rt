//! The operator `#` (N1570 6.10.3.2).

ghost use Rattle.std.specs.Prelude.{◌≡◌, ◌==◌, ◌||◌, ◌++◌, ◌∷◌, [], if◌then◌else◌, IfOk, OnOk};
ghost use Rattle.cl_macro.specs.Strings.{escaped, is_quoted, quoted, spelled, spelled_on, spelled_word, string_of};

use crate::word::{Word, made_word};
use cl_base::{Kind, Mem};
use std::alloc::Global;

/// Whether a token is quoted: `\` stands before each `"` and `\` in its spelling.
fn is_quoted(kind: Kind) -> bool
    ensures { result ≡ is_quoted kind }
{
    match kind {
        Kind::Str | Kind::Char => true,
        Kind::Ident | Kind::Number | Kind::Header | Kind::Punct | Kind::Other => false,
    }
}

/// Whether `\` is put before a byte.
fn is_special(byte: u8) -> bool
    ensures { result ≡ (byte == 34 || byte == 92) }
{
    byte == b'"' || byte == b'\\'
}

/// Adds these bytes, with `\` before each `"` and `\`.
pub(crate) fn push_escaped(text: &mut Vec<u8>, bytes: &[u8]) -> Mem<()>
    ensures { OnOk result (text.new.items ≡ text.old.items ++ escaped bytes.now) }
{
    let mut rest = bytes;
    while let Some((byte, behind)) = rest.split_first() {
        rest = behind;
        if is_special(*byte) {
            text.push(b'\\')?;
        }
        text.push(*byte)?;
    }
    Ok(())
}

/// Adds the spelling of a token in a string.
fn push_word(text: &mut Vec<u8>, word: &Word) -> Mem<()>
    ensures { OnOk result (text.new.items ≡ text.old.items ++ spelled_word word.now) }
{
    if is_quoted(word.token.kind) {
        push_escaped(text, word.token.text.bytes())?;
    } else {
        text.extend_from_slice(word.token.text.bytes())?;
    }
    Ok(())
}

/// Adds a space before a token that has one.
fn push_space(text: &mut Vec<u8>, space: bool) -> Mem<()>
    ensures { OnOk result (text.new.items ≡ text.old.items ++ (if space then 32 ∷ [] else [])) }
{
    if space {
        text.push(b' ')?;
    }
    Ok(())
}

/// Adds the spellings of tokens that others stand before.
fn push_words(text: &mut Vec<u8>, words: &[Word]) -> Mem<()>
    ensures { OnOk result (text.new.items ≡ text.old.items ++ spelled_on words.now) }
{
    let mut rest = words;
    while let Some((word, behind)) = rest.split_first() {
        rest = behind;
        push_space(text, word.token.space)?;
        push_word(text, word)?;
    }
    Ok(())
}

/// Adds the spelling of an argument.
fn push_spelled(text: &mut Vec<u8>, words: &[Word]) -> Mem<()>
    ensures { OnOk result (text.new.items ≡ text.old.items ++ spelled words.now) }
{
    if let Some((word, behind)) = words.split_first() {
        push_word(text, word)?;
        push_words(text, behind)?;
    }
    Ok(())
}

/// The string literal of an argument.
pub(crate) fn string_of(alloc: Global, space: bool, arg: &[Word]) -> Mem<Word>
    ensures { IfOk result (λ word. word ≡ string_of space arg.now) }
{
    let mut text = Vec::new(alloc);
    text.push(b'"')?;
    push_spelled(&mut text, arg)?;
    text.push(b'"')?;
    let word = made_word(alloc, Kind::Str, text.as_slice(), space)?;
    Ok(word)
}
