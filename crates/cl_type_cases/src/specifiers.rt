//! Specifiers, and what they make.

use crate::chains::{base, chain, said, yes_or_no};
use cl_base::{List, Mem};
use cl_specifiers::{
    Declared, Flags, StorageWord, TypeWord, adjusted, base_type, may_stand, storage_of,
    with_qualifiers,
};
use cl_types::CType;
use std::alloc::Global;

fn word(letter: u8) -> TypeWord {
    match letter {
        b'v' => TypeWord::Void,
        b'c' => TypeWord::Char,
        b's' => TypeWord::Short,
        b'i' => TypeWord::Int,
        b'l' => TypeWord::Long,
        b'f' => TypeWord::Float,
        b'd' => TypeWord::Double,
        b'S' => TypeWord::Signed,
        b'U' => TypeWord::Unsigned,
        _ => TypeWord::Bool,
    }
}

fn words(alloc: Global, letters: &str) -> Mem<List<TypeWord>> {
    let mut words = List::new(alloc);
    for letter in letters.as_bytes() {
        words.push(word(*letter))?;
    }
    Ok(words)
}

/// The type of words, and of typedef names for the types of letters.
pub(crate) fn base_of(alloc: Global, letters: &str, names: &str) -> Mem<String> {
    let words = words(alloc, letters)?;
    let mut named = List::new(alloc);
    for letter in names.as_bytes() {
        named.push(base(alloc, *letter)?)?;
    }
    said(alloc, base_type(alloc, &words, named.as_slice())?)
}

/// The qualifiers of a digit, and whether an `A` stands among them.
fn qualifiers(text: &str) -> (u8, bool) {
    let mut sum = 0;
    let mut atomic = false;
    for letter in text.as_bytes() {
        match *letter {
            b'A' => atomic = true,
            b'0'..=b'7' => sum = *letter - b'0',
            _ => {}
        }
    }
    (sum, atomic)
}

pub(crate) fn parameter(alloc: Global, text: &str, digit: &str) -> Mem<String> {
    let t = chain(alloc, text)?.unwrap_or(CType::Error);
    let (sum, _) = qualifiers(digit);
    said(alloc, adjusted(alloc, &t, sum)?)
}

pub(crate) fn qualified_of(alloc: Global, text: &str, digits: &str) -> Mem<String> {
    let t = chain(alloc, text)?.unwrap_or(CType::Error);
    let (sum, atomic) = qualifiers(digits);
    said(alloc, with_qualifiers(alloc, &t, sum, atomic)?)
}

fn storage_word(letter: u8) -> StorageWord {
    match letter {
        b't' => StorageWord::Typedef,
        b'e' => StorageWord::Extern,
        b's' => StorageWord::Static,
        b'a' => StorageWord::Auto,
        b'r' => StorageWord::Register,
        _ => StorageWord::ThreadLocal,
    }
}

pub(crate) fn stored(alloc: Global, letters: &str) -> Mem<String> {
    let mut words = List::new(alloc);
    for letter in letters.as_bytes() {
        words.push(storage_word(*letter))?;
    }
    match storage_of(words.as_slice()) {
        Some(found) => {
            let thread = if found.thread { "T" } else { "" };
            let shown = format!(in alloc; "{}{thread}", found.storage)?;
            Ok(shown)
        }
        None => Ok(String::from_str(alloc, "-")?),
    }
}

fn flags(text: &str) -> Flags {
    let mut flags = Flags {
        storage: 0,
        thread: false,
        inline: false,
        noreturn: false,
        alignas: false,
    };
    for letter in text.as_bytes() {
        match *letter {
            b'0'..=b'5' => flags.storage = *letter - b'0',
            b'T' => flags.thread = true,
            b'i' => flags.inline = true,
            b'n' => flags.noreturn = true,
            _ => flags.alignas = true,
        }
    }
    flags
}

fn declared(letter: u8) -> Declared {
    match letter {
        b'o' => Declared::Object,
        b'f' => Declared::Function,
        b't' => Declared::Typedef,
        b'p' => Declared::Parameter,
        b'm' => Declared::Member,
        b'b' => Declared::BitField,
        _ => Declared::Nothing,
    }
}

pub(crate) fn stands(alloc: Global, text: &str, place: &str) -> Mem<String> {
    let (at_file, what) = match place.as_bytes() {
        [scope, what] => (*scope == b'f', declared(*what)),
        _ => (false, Declared::Nothing),
    };
    yes_or_no(alloc, may_stand(flags(text), at_file, what))
}
