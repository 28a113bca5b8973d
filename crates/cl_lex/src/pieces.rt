//! The pieces that a text is cut into by translation phases 1 and 2: characters and splices (N1570 5.1.1.2).

ghost use Rattle.std.specs.Prelude.{◌≡◌, ◌<◌, ◌≤◌, ◌^◌, length};
ghost use Rattle.cl_lex.specs.Source.{is_byte_order_mark, is_splice, is_trigraph, newline_width, splice_width, trigraph, value_at, width_at};

use crate::bytes::stands;

/// How many bytes the line end has that begins here, 0 where none does.
pub(crate) fn newline_width(text: &[u8], at: usize) -> usize
    requires { at < 2 ^ 32 }
    ensures { result ≡ newline_width text.now at }
{
    if stands(text, at, b'\n') {
        1
    } else if stands(text, at, b'\r') {
        if stands(text, at + 1, b'\n') { 2 } else { 1 }
    } else {
        0
    }
}

/// What a trigraph with this third character stands for, 0 where there is no such trigraph (N1570 5.2.1.1).
pub(crate) fn trigraph(c: u8) -> u8
    ensures { result ≡ trigraph c }
{
    match c {
        b'=' => b'#',
        b'(' => b'[',
        b'/' => b'\\',
        b')' => b']',
        b'\'' => b'^',
        b'<' => b'{',
        b'!' => b'|',
        b'>' => b'}',
        b'-' => b'~',
        _ => 0,
    }
}

/// Whether a trigraph begins here.
pub(crate) fn is_trigraph(text: &[u8], at: usize) -> bool
    requires { at < 2 ^ 32 }
    ensures { result ≡ is_trigraph text.now at }
{
    stands(text, at, b'?')
        && stands(text, at + 1, b'?')
        && at + 2 < text.len()
        && trigraph(text[at + 2]) != 0
}

/// Whether a byte order mark begins here, at the start of the text.
pub(crate) fn is_byte_order_mark(text: &[u8], at: usize) -> bool
    ensures { result ≡ is_byte_order_mark text.now at }
{
    at == 0 && stands(text, 0, 0xef) && stands(text, 1, 0xbb) && stands(text, 2, 0xbf)
}

/// The character that begins at this byte.
pub(crate) fn value_at(text: &[u8], at: usize) -> u8
    requires within { at < length text.now }
    requires small { at < 2 ^ 32 }
    ensures { result ≡ value_at text.now at }
{
    if newline_width(text, at) != 0 {
        b'\n'
    } else if is_trigraph(text, at) {
        trigraph(text[at + 2])
    } else if is_byte_order_mark(text, at) {
        b' '
    } else {
        text[at]
    }
}

/// How many bytes the character has that begins at this byte.
pub(crate) fn width_at(text: &[u8], at: usize) -> usize
    requires { at < 2 ^ 32 }
    ensures { result ≡ width_at text.now at }
{
    let width = newline_width(text, at);
    if width != 0 {
        width
    } else if is_trigraph(text, at) || is_byte_order_mark(text, at) {
        3
    } else {
        1
    }
}

/// Whether a backslash with a line end directly after it begins here.
pub(crate) fn is_splice(text: &[u8], at: usize) -> bool
    requires within { at < length text.now }
    requires small { at < 2 ^ 31 }
    ensures { result ≡ is_splice text.now at }
{
    value_at(text, at) == b'\\' && newline_width(text, at + width_at(text, at)) != 0
}

/// How many bytes the splice has that begins here.
pub(crate) fn splice_width(text: &[u8], at: usize) -> usize
    requires { at < 2 ^ 31 }
    ensures { result ≡ splice_width text.now at }
{
    let width = width_at(text, at);
    width + newline_width(text, at + width)
}
