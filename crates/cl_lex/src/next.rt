//! Which item begins at a character (N1570 6.4p4): the longest that can be formed.

ghost use Rattle.std.specs.Prelude.{◌≡◌, ◌≢◌, ◌<◌, ◌≤◌, Bool, false, length, slice_index, true};
ghost use Rattle.cl_lex.specs.Bytes.{is_blank, is_digit, is_name_start};
ghost use Rattle.cl_lex.specs.Items.{IsItem};
ghost use Rattle.cl_lex.specs.Spelling.{IsStr};

use crate::bytes::{is_blank, is_digit, is_name_start, is_quote_at, stands};
use crate::comment::comment_end;
use crate::item::{Item, ItemKind};
use crate::punctuator::punctuator_len;
use crate::quoted::{char_end, header_end, str_end};
use crate::scan::{blank_end, line_end, name_end, number_end};
use crate::universal::alone_end;
use cl_base::Kind;

/// The item that begins at a character of a text. `header` says that a header name may be formed there.
pub(crate) fn next_item(chars: &[u8], at: usize, header: bool) -> Item
    requires { at < length chars.now }
    ensures from { result.from ≡ at }
    ensures grows { at < result.to }
    ensures within { result.to ≤ length chars.now }
    ensures item { IsItem chars.now header result.kind at result.to }
{
    let first = chars[at];
    if is_name_start(first) {
        return word(chars, at);
    }
    if is_blank(first) {
        return blanks(chars, at);
    }
    if is_digit(first) {
        return number(chars, at);
    }
    match first {
        b'\n' => Item {
            kind: ItemKind::NewLine,
            from: at,
            to: at + 1,
        },
        b'.' => dot(chars, at),
        b'/' => slash(chars, at),
        b'<' => less(chars, at, header),
        b'"' => double_quote(chars, at, header),
        b'\'' => single_quote(chars, at),
        _ => mark(chars, at),
    }
}

/// What begins with a letter or `_`: an identifier, or, where a quote stands after it, maybe a literal.
fn word(chars: &[u8], at: usize) -> Item
    requires within { at < length chars.now }
    requires first { is_name_start (slice_index chars.now at) ≡ true }
    ensures from { result.from ≡ at }
    ensures grows { at < result.to }
    ensures within { result.to ≤ length chars.now }
    ensures item { (header : Bool) → IsItem chars.now header result.kind at result.to }
{
    let to = name_end(chars, at + 1);
    if is_quote_at(chars, to) {
        return prefixed(chars, at);
    }
    Item {
        kind: ItemKind::Token(Kind::Ident),
        from: at,
        to,
    }
}

/// What begins with a letter or `_`: a character constant or a string literal with a prefix, or else an identifier.
fn prefixed(chars: &[u8], at: usize) -> Item
    requires within { at < length chars.now }
    requires first { is_name_start (slice_index chars.now at) ≡ true }
    ensures from { result.from ≡ at }
    ensures grows { at < result.to }
    ensures within { result.to ≤ length chars.now }
    ensures item { (header : Bool) → IsItem chars.now header result.kind at result.to }
{
    if let Some(to) = char_end(chars, at) {
        return Item {
            kind: ItemKind::Token(Kind::Char),
            from: at,
            to,
        };
    }
    if let Some(to) = str_end(chars, at) {
        return Item {
            kind: ItemKind::Token(Kind::Str),
            from: at,
            to,
        };
    }
    Item {
        kind: ItemKind::Token(Kind::Ident),
        from: at,
        to: name_end(chars, at + 1),
    }
}

/// White space within a line.
fn blanks(chars: &[u8], at: usize) -> Item
    requires within { at < length chars.now }
    requires first { is_blank (slice_index chars.now at) ≡ true }
    ensures from { result.from ≡ at }
    ensures grows { at < result.to }
    ensures within { result.to ≤ length chars.now }
    ensures item { (header : Bool) → IsItem chars.now header result.kind at result.to }
{
    Item {
        kind: ItemKind::Space,
        from: at,
        to: blank_end(chars, at + 1),
    }
}

/// A preprocessing number that begins with a digit.
fn number(chars: &[u8], at: usize) -> Item
    requires within { at < length chars.now }
    requires first { is_digit (slice_index chars.now at) ≡ true }
    ensures from { result.from ≡ at }
    ensures grows { at < result.to }
    ensures within { result.to ≤ length chars.now }
    ensures item { (header : Bool) → IsItem chars.now header result.kind at result.to }
{
    Item {
        kind: ItemKind::Token(Kind::Number),
        from: at,
        to: number_end(chars, at + 1),
    }
}

/// What begins with a dot: a preprocessing number or a punctuator.
fn dot(chars: &[u8], at: usize) -> Item
    requires within { at < length chars.now }
    requires first { slice_index chars.now at ≡ 46 }
    ensures from { result.from ≡ at }
    ensures grows { at < result.to }
    ensures within { result.to ≤ length chars.now }
    ensures item { (header : Bool) → IsItem chars.now header result.kind at result.to }
{
    if at + 1 < chars.len() && is_digit(chars[at + 1]) {
        return Item {
            kind: ItemKind::Token(Kind::Number),
            from: at,
            to: number_end(chars, at + 2),
        };
    }
    Item {
        kind: ItemKind::Token(Kind::Punct),
        from: at,
        to: at + punctuator_len(chars, at),
    }
}

/// What begins with a slash: a comment or a punctuator.
fn slash(chars: &[u8], at: usize) -> Item
    requires within { at < length chars.now }
    requires first { slice_index chars.now at ≡ 47 }
    ensures from { result.from ≡ at }
    ensures grows { at < result.to }
    ensures within { result.to ≤ length chars.now }
    ensures item { (header : Bool) → IsItem chars.now header result.kind at result.to }
{
    if stands(chars, at + 1, b'/') {
        return Item {
            kind: ItemKind::Comment,
            from: at,
            to: line_end(chars, at + 2),
        };
    }
    if stands(chars, at + 1, b'*') {
        return match comment_end(chars, at + 2) {
            Some(to) => Item {
                kind: ItemKind::Comment,
                from: at,
                to,
            },
            None => Item {
                kind: ItemKind::OpenComment,
                from: at,
                to: chars.len(),
            },
        };
    }
    Item {
        kind: ItemKind::Token(Kind::Punct),
        from: at,
        to: at + punctuator_len(chars, at),
    }
}

/// What begins with `<`: a header name, where one may be formed, or a punctuator.
fn less(chars: &[u8], at: usize, header: bool) -> Item
    requires within { at < length chars.now }
    requires first { slice_index chars.now at ≡ 60 }
    ensures from { result.from ≡ at }
    ensures grows { at < result.to }
    ensures within { result.to ≤ length chars.now }
    ensures item { IsItem chars.now header result.kind at result.to }
{
    if let Some(to) = header_end(chars, at, header) {
        return Item {
            kind: ItemKind::Token(Kind::Header),
            from: at,
            to,
        };
    }
    Item {
        kind: ItemKind::Token(Kind::Punct),
        from: at,
        to: at + punctuator_len(chars, at),
    }
}

/// What begins with `"`: a header name, where one may be formed, or a string literal, or a lone quote.
fn double_quote(chars: &[u8], at: usize, header: bool) -> Item
    requires within { at < length chars.now }
    requires first { slice_index chars.now at ≡ 34 }
    ensures from { result.from ≡ at }
    ensures grows { at < result.to }
    ensures within { result.to ≤ length chars.now }
    ensures item { IsItem chars.now header result.kind at result.to }
{
    if let Some(to) = str_end(chars, at) {
        return string_or_name(chars, at, to, header);
    }
    if let Some(to) = header_end(chars, at, header) {
        return Item {
            kind: ItemKind::Token(Kind::Header),
            from: at,
            to,
        };
    }
    Item {
        kind: ItemKind::Token(Kind::Other),
        from: at,
        to: line_end(chars, at + 1),
    }
}

/// Where a string literal begins and ends: a header name, if one may be formed that is as long, and else the literal.
fn string_or_name(chars: &[u8], at: usize, to: usize, header: bool) -> Item
    requires within { at < length chars.now }
    requires first { slice_index chars.now at ≡ 34 }
    requires is { IsStr chars.now at to }
    requires grows { at < to }
    requires ends { to ≤ length chars.now }
    ensures from { result.from ≡ at }
    ensures grows { at < result.to }
    ensures within { result.to ≤ length chars.now }
    ensures item { IsItem chars.now header result.kind at result.to }
{
    if let Some(name) = header_end(chars, at, header)
        && name >= to
    {
        return Item {
            kind: ItemKind::Token(Kind::Header),
            from: at,
            to: name,
        };
    }
    Item {
        kind: ItemKind::Token(Kind::Str),
        from: at,
        to,
    }
}

/// What begins with `'`: a character constant or a lone quote.
fn single_quote(chars: &[u8], at: usize) -> Item
    requires within { at < length chars.now }
    requires first { slice_index chars.now at ≡ 39 }
    ensures from { result.from ≡ at }
    ensures grows { at < result.to }
    ensures within { result.to ≤ length chars.now }
    ensures item { (header : Bool) → IsItem chars.now header result.kind at result.to }
{
    if let Some(to) = char_end(chars, at) {
        return Item {
            kind: ItemKind::Token(Kind::Char),
            from: at,
            to,
        };
    }
    Item {
        kind: ItemKind::Token(Kind::Other),
        from: at,
        to: line_end(chars, at + 1),
    }
}

/// What begins with any other character: a punctuator or that character by itself.
fn mark(chars: &[u8], at: usize) -> Item
    requires within { at < length chars.now }
    requires name { is_name_start (slice_index chars.now at) ≡ false }
    requires blank { is_blank (slice_index chars.now at) ≡ false }
    requires digit { is_digit (slice_index chars.now at) ≡ false }
    requires new_line { slice_index chars.now at ≢ 10 }
    requires dot { slice_index chars.now at ≢ 46 }
    requires slash { slice_index chars.now at ≢ 47 }
    requires less { slice_index chars.now at ≢ 60 }
    requires double { slice_index chars.now at ≢ 34 }
    requires single { slice_index chars.now at ≢ 39 }
    ensures from { result.from ≡ at }
    ensures grows { at < result.to }
    ensures within { result.to ≤ length chars.now }
    ensures item { (header : Bool) → IsItem chars.now header result.kind at result.to }
{
    match punctuator_len(chars, at) {
        0 => Item {
            kind: ItemKind::Token(Kind::Other),
            from: at,
            to: alone_end(chars, at),
        },
        len => Item {
            kind: ItemKind::Token(Kind::Punct),
            from: at,
            to: at + len,
        },
    }
}
