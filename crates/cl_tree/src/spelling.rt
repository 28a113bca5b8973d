//! The keywords and punctuators of the grammar.

ghost use Rattle.std.specs.Prelude.{◌≡◌, ℕ, Some, true, length, map, nat_eq, slice_get};
ghost use Rattle.std.specs.Cmp.Lexicographic.{pointwise};
ghost use Rattle.cl_tree.specs.Spellings as s;
ghost use Rattle.cl_tree.specs.code.Slots as c;
ghost use Rattle.cl_tree.specs.declared.class.Class.TheVariants as cl;
ghost use Rattle.cl_tree.specs.declared.shape.Raw.TheVariants as raw;

use crate::class::Class;
use crate::shape::{Ahead, Raw, Sort};
use crate::slot::{keyword_row, punctuator_row};
use cl_base::{Kind, PpToken};

/// A spelling, and what it stands for.
#[derive(Clone, Copy)]
pub struct Spelling {
    pub text: &'static [u8],
    pub sort: Sort,
}

macro_rules! plain {
    ($class:ident) => {
        Raw::Plain(Class::$class)
    };
}

macro_rules! spelled {
    ($text:expr, $raw:expr, $ahead:ident) => {
        Spelling {
            text: $text,
            sort: Sort {
                raw: $raw,
                ahead: Ahead::$ahead,
            },
        }
    };
}

/// The keywords (N1570 6.4.1). Those of complex types stand in no production.
static KEYWORDS: [Spelling; 44] = [
    spelled!(b"_Alignas", plain!(Alignas), Type),
    spelled!(b"_Alignof", plain!(Alignof), Other),
    spelled!(b"_Atomic", Raw::Atomic, Type),
    spelled!(b"_Bool", plain!(Bool), Type),
    spelled!(b"_Complex", plain!(Other), Other),
    spelled!(b"_Generic", plain!(Generic), Other),
    spelled!(b"_Imaginary", plain!(Other), Other),
    spelled!(b"_Noreturn", plain!(Noreturn), Type),
    spelled!(b"_Static_assert", plain!(StaticAssert), Other),
    spelled!(b"_Thread_local", plain!(ThreadLocal), Type),
    spelled!(b"auto", plain!(Auto), Type),
    spelled!(b"break", plain!(Break), Other),
    spelled!(b"case", plain!(Case), Other),
    spelled!(b"char", plain!(Char), Type),
    spelled!(b"const", plain!(Const), Type),
    spelled!(b"continue", plain!(Continue), Other),
    spelled!(b"default", plain!(Default), Other),
    spelled!(b"do", plain!(Do), Other),
    spelled!(b"double", plain!(Double), Type),
    spelled!(b"else", plain!(Else), Other),
    spelled!(b"enum", plain!(Enum), Type),
    spelled!(b"extern", plain!(Extern), Type),
    spelled!(b"float", plain!(Float), Type),
    spelled!(b"for", plain!(For), Other),
    spelled!(b"goto", plain!(Goto), Other),
    spelled!(b"if", plain!(If), Other),
    spelled!(b"inline", plain!(Inline), Type),
    spelled!(b"int", plain!(Int), Type),
    spelled!(b"long", plain!(Long), Type),
    spelled!(b"register", plain!(Register), Type),
    spelled!(b"restrict", plain!(Restrict), Type),
    spelled!(b"return", plain!(Return), Other),
    spelled!(b"short", plain!(Short), Type),
    spelled!(b"signed", plain!(Signed), Type),
    spelled!(b"sizeof", plain!(Sizeof), Other),
    spelled!(b"static", plain!(Static), Type),
    spelled!(b"struct", plain!(Struct), Type),
    spelled!(b"switch", plain!(Switch), Other),
    spelled!(b"typedef", plain!(Typedef), Type),
    spelled!(b"union", plain!(Union), Type),
    spelled!(b"unsigned", plain!(Unsigned), Type),
    spelled!(b"void", plain!(Void), Type),
    spelled!(b"volatile", plain!(Volatile), Type),
    spelled!(b"while", plain!(While), Other),
];

/// The punctuators of the grammar (N1570 6.4.6); `#` and `##` are none.
static PUNCTUATORS: [Spelling; 50] = [
    spelled!(b"(", Raw::Paren, Paren),
    spelled!(b")", plain!(RightParen), Other),
    spelled!(b",", Raw::Comma, Other),
    spelled!(b";", plain!(Semicolon), Other),
    spelled!(b"=", plain!(Equal), Other),
    spelled!(b"*", Raw::Star, Other),
    spelled!(b"->", plain!(Arrow), Other),
    spelled!(b"{", plain!(LeftBrace), Other),
    spelled!(b"}", plain!(RightBrace), End),
    spelled!(b".", plain!(Dot), Designator),
    spelled!(b"[", plain!(LeftBracket), Designator),
    spelled!(b"]", plain!(RightBracket), Bracket),
    spelled!(b"&", plain!(Ampersand), Other),
    spelled!(b"+", plain!(Plus), Other),
    spelled!(b"-", plain!(Minus), Other),
    spelled!(b":", plain!(Colon), Colon),
    spelled!(b"++", plain!(PlusPlus), Other),
    spelled!(b"--", plain!(MinusMinus), Other),
    spelled!(b"~", plain!(Tilde), Other),
    spelled!(b"!", plain!(Bang), Other),
    spelled!(b"/", plain!(Slash), Other),
    spelled!(b"%", plain!(Percent), Other),
    spelled!(b"<<", plain!(ShiftLeft), Other),
    spelled!(b">>", plain!(ShiftRight), Other),
    spelled!(b"<", plain!(Less), Other),
    spelled!(b">", plain!(Greater), Other),
    spelled!(b"<=", plain!(LessEqual), Other),
    spelled!(b">=", plain!(GreaterEqual), Other),
    spelled!(b"==", plain!(EqualEqual), Other),
    spelled!(b"!=", plain!(BangEqual), Other),
    spelled!(b"^", plain!(Caret), Other),
    spelled!(b"|", plain!(Bar), Other),
    spelled!(b"&&", plain!(AndAnd), Other),
    spelled!(b"||", plain!(OrOr), Other),
    spelled!(b"?", plain!(Question), Other),
    spelled!(b"...", plain!(Ellipsis), End),
    spelled!(b"*=", plain!(StarEqual), Other),
    spelled!(b"/=", plain!(SlashEqual), Other),
    spelled!(b"%=", plain!(PercentEqual), Other),
    spelled!(b"+=", plain!(PlusEqual), Other),
    spelled!(b"-=", plain!(MinusEqual), Other),
    spelled!(b"<<=", plain!(ShiftLeftEqual), Other),
    spelled!(b">>=", plain!(ShiftRightEqual), Other),
    spelled!(b"&=", plain!(AmpersandEqual), Other),
    spelled!(b"^=", plain!(CaretEqual), Other),
    spelled!(b"|=", plain!(BarEqual), Other),
    spelled!(b"<:", plain!(LeftBracket), Designator),
    spelled!(b":>", plain!(RightBracket), Bracket),
    spelled!(b"<%", plain!(LeftBrace), Other),
    spelled!(b"%>", plain!(RightBrace), End),
];

fn keywords() -> &'static [Spelling]
    ensures { map s.plain result.now ≡ s.keywords }
{
    &KEYWORDS
}

fn punctuators() -> &'static [Spelling]
    ensures { map s.plain result.now ≡ s.punctuators }
{
    &PUNCTUATORS
}

/// The first byte of a text.
fn first_byte(text: &[u8]) -> Option<u8>
    ensures { result ≡ slice_get text.now 0 }
{
    text.get(0).copied()
}

/// Whether two first bytes are there and differ.
fn differ(one: Option<u8>, other: Option<u8>) -> bool
    ensures { result ≡ true → (a b : ℕ) × (one ≡ Some a) × (other ≡ Some b) × (a ≡ b → ⊥) }
{
    match one {
        Some(a) => match other {
            Some(b) => a != b,
            None => false,
        },
        None => false,
    }
}

/// Whether two texts differ in their lengths.
fn uneven(one: &[u8], other: &[u8]) -> bool
    ensures { result ≡ true → length one.now ≡ length other.now → ⊥ }
{
    one.len() != other.len()
}

/// Whether two texts are one: most differ in their lengths or first bytes.
pub fn same_text(one: &[u8], other: &[u8]) -> bool
    ensures { result ≡ pointwise nat_eq one.now other.now }
{
    let uneven = uneven(one, other);
    if uneven {
        return false;
    }
    let apart = differ(first_byte(one), first_byte(other));
    if apart {
        return false;
    }
    one == other
}

/// What a row of a table stands for, if it has this text; or else this.
fn in_row(table: &[Spelling], row: usize, text: &[u8], other: Sort) -> Sort
    ensures { result ≡ c.row_of (slice_get (map s.plain table.now) row) text.now other }
{
    let Some(spelling) = table.get(row) else {
        return other;
    };
    let same = same_text(spelling.text, text);
    if same { spelling.sort } else { other }
}

/// What an identifier or a keyword is by itself, and to the one before it.
fn word_sort(text: &[u8]) -> Sort
    ensures { result ≡ s.find s.keywords text.now (s.sort raw.Word) }
{
    in_row(keywords(), keyword_row(text), text, plain(Raw::Word))
}

/// What a punctuator is by itself, and to the one before it.
fn punctuator_sort(text: &[u8]) -> Sort
    ensures { result ≡ s.find s.punctuators text.now (s.sort (raw.Plain cl.Other)) }
{
    let other = plain(Raw::Plain(Class::Other));
    in_row(punctuators(), punctuator_row(text), text, other)
}

/// What a token is by itself, and to the one before it.
#[tactic(auto, unfolding(crate::specs::Spellings::sort_of))]
pub fn sort_of(token: &PpToken) -> Sort
    ensures { result ≡ s.sort_of token.now }
{
    match token.kind {
        Kind::Ident => word_sort(token.text.bytes()),
        Kind::Number => plain(Raw::Plain(Class::Constant)),
        Kind::Char => plain(Raw::Plain(Class::Constant)),
        Kind::Str => plain(Raw::Plain(Class::String)),
        Kind::Header => plain(Raw::Plain(Class::Other)),
        Kind::Punct => punctuator_sort(token.text.bytes()),
        Kind::Other => plain(Raw::Plain(Class::Other)),
    }
}

fn plain(raw: Raw) -> Sort
    ensures { result ≡ s.sort raw }
{
    Sort {
        raw,
        ahead: Ahead::Other,
    }
}
