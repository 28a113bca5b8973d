//! The kinds of characters.

ghost use Rattle.std.specs.Prelude.{◌≡◌, slice_index};
ghost use Rattle.cl_lex.specs.Bytes.{is_blank, is_digit, is_exponent, is_hex, is_name_byte, is_name_start, is_quote, is_sign};
ghost use Rattle.cl_lex.specs.Source.{stands};

/// Whether the character is a letter or `_` (N1570 6.4.2.1, nondigit).
pub(crate) fn is_name_start(c: u8) -> bool
    ensures { result ≡ is_name_start c }
{
    matches!(c, b'A'..=b'Z' | b'a'..=b'z' | b'_')
}

/// Whether the character is a digit.
pub(crate) fn is_digit(c: u8) -> bool
    ensures { result ≡ is_digit c }
{
    matches!(c, b'0'..=b'9')
}

/// Whether the character is a hexadecimal digit.
pub(crate) fn is_hex(c: u8) -> bool
    ensures { result ≡ is_hex c }
{
    matches!(c, b'0'..=b'9' | b'A'..=b'F' | b'a'..=b'f')
}

/// Whether the character is a letter, `_` or a digit.
pub(crate) fn is_name_byte(c: u8) -> bool
    ensures { result ≡ is_name_byte c }
{
    is_name_start(c) || is_digit(c)
}

/// Whether the character is white space within a line: tab, vertical tab, form feed or space (N1570 6.4p3).
pub(crate) fn is_blank(c: u8) -> bool
    ensures { result ≡ is_blank c }
{
    matches!(c, b' ' | b'\t' | 11 | 12)
}

/// Whether the character is a letter before a number's exponent (N1570 6.4.8).
pub(crate) fn is_exponent(c: u8) -> bool
    ensures { result ≡ is_exponent c }
{
    matches!(c, b'e' | b'E' | b'p' | b'P')
}

/// Whether the character is `+` or `-`.
pub(crate) fn is_sign(c: u8) -> bool
    ensures { result ≡ is_sign c }
{
    matches!(c, b'+' | b'-')
}

/// Whether the character is `"` or `'`.
pub(crate) fn is_quote(c: u8) -> bool
    ensures { result ≡ is_quote c }
{
    matches!(c, b'"' | b'\'')
}

/// Whether `"` or `'` stands there.
pub(crate) fn is_quote_at(text: &[u8], at: usize) -> bool
    ensures { result ≡ is_quote (slice_index text.now at) }
{
    match text.get(at) {
        Some(found) => is_quote(*found),
        None => false,
    }
}

/// Whether this character stands there.
pub(crate) fn stands(text: &[u8], at: usize, c: u8) -> bool
    ensures { result ≡ stands text.now at c }
{
    match text.get(at) {
        Some(found) => *found == c,
        None => false,
    }
}
