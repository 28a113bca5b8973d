//! Types as C writes them (N1570 6.7.6, 6.7.7).

ghost use Rattle.std.specs.Prelude.{◌≡◌, ◌++◌, true, codes, string_bytes, IfOk, OnOk};
ghost use Rattle.cl_lossy.specs.Lossy.{shown};
ghost use Rattle.std.specs.Fmt.{decimal};
ghost use Rattle.cl_print.specs.code.Bases.{leaf_base};
ghost use Rattle.cl_print.specs.Print.{basic_word, qualifier_words, tag_word, tag_name, length_text, gap, between, based, pointer_declarator, star, separator, ending, parameters, parameters_text, printed, printed_params, spelled_each, text_of};

use cl_base::{List, Mem, Name};
use cl_lossy::shown;
use cl_types::{Basic, CType, Length, Params, TagWord, basic_of};
use std::alloc::Global;

fn basic_word(k: Basic) -> &'static [u8]
    ensures { result.now ≡ basic_word k }
{
    match k {
        Basic::Bool => b"_Bool",
        Basic::Char => b"char",
        Basic::SChar => b"signed char",
        Basic::UChar => b"unsigned char",
        Basic::Short => b"short",
        Basic::UShort => b"unsigned short",
        Basic::Int => b"int",
        Basic::UInt => b"unsigned int",
        Basic::Long => b"long",
        Basic::ULong => b"unsigned long",
        Basic::LLong => b"long long",
        Basic::ULLong => b"unsigned long long",
        Basic::Float => b"float",
        Basic::Double => b"double",
        Basic::LDouble => b"long double",
    }
}

fn qualifier_words(qualifiers: u8) -> &'static [u8]
    ensures { result.now ≡ qualifier_words qualifiers }
{
    match qualifiers {
        1 => b"const",
        2 => b"volatile",
        3 => b"const volatile",
        4 => b"restrict",
        5 => b"const restrict",
        6 => b"volatile restrict",
        7 => b"const volatile restrict",
        _ => b"",
    }
}

fn tag_word(word: TagWord) -> &'static [u8]
    ensures { result.now ≡ tag_word word }
{
    match word {
        TagWord::Struct => b"struct ",
        TagWord::Union => b"union ",
        TagWord::Enum => b"enum ",
    }
}

fn tag_name(name: &Option<Name>) -> &[u8]
    ensures { result.now ≡ tag_name name.now }
{
    match name {
        Some(name) => name.bytes(),
        None => b"(unnamed)",
    }
}

/// A space before what isn't empty.
fn gap(text: &[u8]) -> &'static [u8]
    ensures { result.now ≡ gap text.now }
{
    match text {
        [] => b"",
        _ => b" ",
    }
}

fn between(words: &[u8], text: &[u8]) -> &'static [u8]
    ensures { result.now ≡ between words.now text.now }
{
    match words {
        [] => b"",
        _ => gap(text),
    }
}

fn number_text(alloc: Global, n: u64) -> Mem<String>
    ensures { IfOk result (λ text. string_bytes text ≡ decimal n) }
{
    let text = n.to_string(alloc)?;
    Ok(text)
}

fn push_length(alloc: Global, text: &mut List<u8>, length: Length) -> Mem<()>
    ensures { OnOk result (text.new ≡ text.old ++ length_text length) }
{
    match length {
        Length::Fixed(n) => {
            let digits = number_text(alloc, n)?;
            text.extend(b"[")?;
            text.extend(digits.as_str().as_bytes())?;
            text.extend(b"]")?;
            Ok(())
        }
        Length::Unsized => {
            text.extend(b"[]")?;
            Ok(())
        }
        Length::Variable => {
            text.extend(b"[*]")?;
            Ok(())
        }
        Length::Unknown => {
            text.extend(b"[?]")?;
            Ok(())
        }
    }
}

/// A base behind its qualifiers and before its declarator.
fn based(alloc: Global, qualifiers: u8, base: &[u8], declarator: &[u8]) -> Mem<List<u8>>
    ensures { IfOk result (λ text. text ≡ based qualifiers base.now declarator.now) }
{
    let words = qualifier_words(qualifiers);
    let mut text = List::new(alloc);
    text.extend(words)?;
    text.extend(gap(words))?;
    text.extend(base)?;
    text.extend(gap(declarator))?;
    text.extend(declarator)?;
    Ok(text)
}

fn star(alloc: Global, qualifiers: u8, declarator: &[u8]) -> Mem<List<u8>>
    ensures { IfOk result (λ text. text ≡ star qualifiers declarator.now) }
{
    let words = qualifier_words(qualifiers);
    let mut text = List::new(alloc);
    text.extend(b"*")?;
    text.extend(words)?;
    text.extend(between(words, declarator))?;
    text.extend(declarator)?;
    Ok(text)
}

fn pointer_declarator(
    alloc: Global,
    wraps: bool,
    qualifiers: u8,
    declarator: &[u8],
) -> Mem<List<u8>>
    ensures { IfOk result (λ text. text ≡ pointer_declarator wraps qualifiers declarator.now) }
{
    let star = star(alloc, qualifiers, declarator)?;
    if wraps {
        let mut text = List::new(alloc);
        text.extend(b"(")?;
        text.extend(star.as_slice())?;
        text.extend(b")")?;
        Ok(text)
    } else {
        Ok(star)
    }
}

/// Whether the part of a type stands behind the declarator.
fn wraps(t: &CType) -> bool
    ensures { result ≡ (printed t.now).wraps }
{
    match t {
        CType::Array(_, _) => true,
        CType::Function(_, _) => true,
        _ => false,
    }
}

fn separator(first: bool) -> &'static [u8]
    ensures { result.now ≡ separator first }
{
    if first { b"" } else { b", " }
}

fn ending(first: bool, variadic: bool) -> &'static [u8]
    ensures { result.now ≡ ending first variadic }
{
    if variadic {
        if first { b"..." } else { b", ..." }
    } else if first {
        b"void"
    } else {
        b""
    }
}

fn array_declarator(alloc: Global, declarator: &[u8], length: Length) -> Mem<List<u8>>
    ensures { IfOk result (λ text. text ≡ declarator.now ++ length_text length) }
{
    let mut text = List::new(alloc);
    text.extend(declarator)?;
    push_length(alloc, &mut text, length)?;
    Ok(text)
}

fn function_declarator(alloc: Global, declarator: &[u8], params: &[u8]) -> Mem<List<u8>>
    ensures { IfOk result (λ text. text ≡ declarator.now ++ (codes "(" ++ (params.now ++ codes ")"))) }
{
    let mut text = List::new(alloc);
    text.extend(declarator)?;
    text.extend(b"(")?;
    text.extend(params)?;
    text.extend(b")")?;
    Ok(text)
}

fn atomic_base(alloc: Global, within: &[u8]) -> Mem<List<u8>>
    ensures { IfOk result (λ text. text ≡ codes "_Atomic(" ++ (within.now ++ codes ")")) }
{
    let mut text = List::new(alloc);
    text.extend(b"_Atomic(")?;
    text.extend(within)?;
    text.extend(b")")?;
    Ok(text)
}

fn tag_base(alloc: Global, word: TagWord, name: &Option<Name>) -> Mem<List<u8>>
    ensures { IfOk result (λ text. text ≡ tag_word word ++ tag_name name.now) }
{
    let mut text = List::new(alloc);
    text.extend(tag_word(word))?;
    text.extend(tag_name(name))?;
    Ok(text)
}

/// The base of a type without parts.
fn leaf_base(alloc: Global, t: &CType) -> Mem<List<u8>>
    ensures { IfOk result (λ text. text ≡ leaf_base t.now) }
{
    match t {
        CType::Void => bytes(alloc, b"void"),
        CType::Tag(_, word, name) => tag_base(alloc, *word, name),
        other => match basic_of(other) {
            Some(k) => bytes(alloc, basic_word(k)),
            None => bytes(alloc, b"(error)"),
        },
    }
}

fn bytes(alloc: Global, text: &[u8]) -> Mem<List<u8>>
    ensures { IfOk result (λ copy. copy ≡ text.now) }
{
    let mut copy = List::new(alloc);
    copy.extend(text)?;
    Ok(copy)
}

/// The text of a type with these qualifiers of its own round a declarator.
#[cycle(spell)]
fn spell(alloc: Global, t: &CType, qualifiers: u8, declarator: &[u8]) -> Mem<List<u8>>
    ensures { IfOk result (λ text. text ≡ (printed t.now).text qualifiers declarator.now) }
{
    match t {
        CType::Pointer(within) => {
            let declarator = pointer_declarator(
                alloc,
                wraps(within.get()),
                qualifiers,
                declarator,
            )?;
            let text = spell(alloc, within.get(), 0, declarator.as_slice())?;
            Ok(text)
        }
        CType::Array(within, length) => {
            let declarator = array_declarator(alloc, declarator, *length)?;
            let text = spell(alloc, within.get(), qualifiers, declarator.as_slice())?;
            Ok(text)
        }
        CType::Function(within, params) => {
            let params = spell_params(alloc, params)?;
            let declarator = function_declarator(alloc, declarator, params.as_slice())?;
            let text = spell(alloc, within.get(), 0, declarator.as_slice())?;
            Ok(text)
        }
        CType::Qualified(own, within) => {
            let text = spell(alloc, within.get(), *own, declarator)?;
            Ok(text)
        }
        CType::Atomic(within) => {
            let within = spell(alloc, within.get(), 0, b"")?;
            let base = atomic_base(alloc, within.as_slice())?;
            let text = based(alloc, qualifiers, base.as_slice(), declarator)?;
            Ok(text)
        }
        leaf => {
            let base = leaf_base(alloc, leaf)?;
            let text = based(alloc, qualifiers, base.as_slice(), declarator)?;
            Ok(text)
        }
    }
}

#[cycle(spell)]
fn spell_params(alloc: Global, params: &Params) -> Mem<List<u8>>
    ensures { IfOk result (λ text. text ≡ parameters_text (printed_params params.now)) }
{
    match params {
        Params::Proto(types, variadic) => {
            let text = spell_types(alloc, types.get().as_slice(), *variadic)?;
            Ok(text)
        }
        Params::NoProto => Ok(List::new(alloc)),
    }
}

#[cycle(spell)]
fn spell_types(alloc: Global, types: &[CType], variadic: bool) -> Mem<List<u8>>
    ensures { IfOk result (λ text. text ≡ parameters true (spelled_each types.now) variadic) }
{
    let mut text = List::new(alloc);
    let mut first = true;
    for t in types {
        let one = spell(alloc, t, 0, b"")?;
        text.extend(separator(first))?;
        text.extend(one.as_slice())?;
        first = false;
    }
    text.extend(ending(first, variadic))?;
    Ok(text)
}

/// A type with a name, or with none, as C writes it. Typedef names don't stand in it. Each byte of a name that is part of no
/// UTF-8 character stands as U+FFFD.
pub fn print(alloc: Global, t: &CType, name: &str) -> Mem<String>
    ensures { IfOk result (λ text. string_bytes text ≡ shown (text_of t.now name.now)) }
{
    let bytes = spell(alloc, t, 0, name.as_bytes())?;
    let text = shown(alloc, bytes.as_slice())?;
    Ok(text)
}
