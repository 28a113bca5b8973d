//! Where character constants, string literals and header names end.

ghost use Rattle.std.specs.Prelude.{◌≡◌, ◌≢◌, ℕ, ◌+◌, ◌<◌, ◌≤◌, length, slice_index, IfNone, IfSome, Bool, true, false, not, ◌&&◌, ◌==◌};
ghost use Rattle.cl_lex.specs.Spelling.{HasNone, IsBetween, IsChar, IsHeader, IsQuoted, IsStr, char_prefix, str_prefix};

use crate::bytes::stands;

/// The quote that closes what an opening quote before the character `from` began, if one does on its line (N1570
/// 6.4.4.4, 6.4.5).
fn closing(chars: &[u8], from: usize, quote: u8) -> Option<usize>
    requires quote { quote ≢ 10 }
    ensures some { IfSome result (λ close. IsQuoted chars.now quote from close) }
    ensures none { IfNone result ((m : ℕ) → IsQuoted chars.now quote from m → ⊥) }
{
    let mut at = from;
    let mut escaped = false;
    while at < chars.len() && chars[at] != b'\n' {
        if closes(chars[at], quote, escaped) {
            return Some(at);
        }
        escaped = escapes(chars[at], escaped);
        at += 1;
    }
    None
}

/// Whether this character is the quote, and no backslash takes it.
fn closes(c: u8, quote: u8, escaped: bool) -> bool
    ensures yes { result ≡ true → (c ≡ quote) × (escaped ≡ false) }
    ensures no { result ≡ false → c ≡ quote → escaped ≡ true }
{
    c == quote && !escaped
}

/// Whether this character is a backslash that takes the one after it.
fn escapes(c: u8, escaped: bool) -> bool
    ensures { result ≡ (c == 92 && not escaped) }
{
    c == b'\\' && !escaped
}

/// How long the prefix of a character constant may be that begins here (N1570 6.4.4.4).
fn char_prefix(chars: &[u8], at: usize) -> usize
    ensures { result ≡ char_prefix chars.now at }
{
    if stands(chars, at, b'L') || stands(chars, at, b'u') || stands(chars, at, b'U') {
        1
    } else {
        0
    }
}

/// How long the prefix of a string literal may be that begins here (N1570 6.4.5).
fn str_prefix(chars: &[u8], at: usize) -> usize
    requires { at < length chars.now }
    ensures { result ≡ str_prefix chars.now at }
{
    if stands(chars, at, b'u') && stands(chars, at + 1, b'8') {
        2
    } else {
        char_prefix(chars, at)
    }
}

/// Where the character constant ends that begins here, if one does (N1570 6.4.4.4).
pub(crate) fn char_end(chars: &[u8], at: usize) -> Option<usize>
    requires { at < length chars.now }
    ensures some { IfSome result (λ to. IsChar chars.now at to × (at < to) × (to ≤ length chars.now)) }
    ensures none { IfNone result ((m : ℕ) → IsChar chars.now at m → ⊥) }
{
    let open = at + char_prefix(chars, at);
    if !stands(chars, open, b'\'') {
        return None;
    }
    match closing(chars, open + 1, b'\'') {
        Some(close) => {
            if close == open + 1 {
                return None;
            }
            Some(close + 1)
        }
        None => None,
    }
}

/// Where the string literal ends that begins here, if one does (N1570 6.4.5).
pub(crate) fn str_end(chars: &[u8], at: usize) -> Option<usize>
    requires { at < length chars.now }
    ensures some { IfSome result (λ to. IsStr chars.now at to × (at < to) × (to ≤ length chars.now)) }
    ensures none { IfNone result ((m : ℕ) → IsStr chars.now at m → ⊥) }
{
    let open = at + str_prefix(chars, at);
    if !stands(chars, open, b'"') {
        return None;
    }
    match closing(chars, open + 1, b'"') {
        Some(close) => Some(close + 1),
        None => None,
    }
}

/// Where the header name ends that begins here, if one may be formed and does (N1570 6.4.7).
pub(crate) fn header_end(chars: &[u8], at: usize, header: bool) -> Option<usize>
    requires { at < length chars.now }
    ensures some { IfSome result (λ to. (header ≡ true) × IsHeader chars.now at to × (at < to) × (to ≤ length chars.now)) }
    ensures none { IfNone result ((m : ℕ) → header ≡ true → IsHeader chars.now at m → ⊥) }
{
    if !header {
        return None;
    }
    match chars[at] {
        b'<' => between_end(chars, at, b'<', b'>'),
        b'"' => between_end(chars, at, b'"', b'"'),
        _ => None,
    }
}

/// Where it ends that goes from this character to the first `close_by` after it, if that is on its line and something
/// stands between.
fn between_end(chars: &[u8], from: usize, open_by: u8, close_by: u8) -> Option<usize>
    requires within { from < length chars.now }
    requires open { slice_index chars.now from ≡ open_by }
    requires close { close_by ≢ 10 }
    ensures some { IfSome result (λ to. IsBetween chars.now open_by close_by from to) }
    ensures none { IfNone result ((m : ℕ) → IsBetween chars.now open_by close_by from m → ⊥) }
{
    let close = find(chars, from + 1, close_by);
    if stands(chars, close, close_by) && close > from + 1 {
        return Some(close + 1);
    }
    None
}

/// Where this character stands first from a place on, or the line or the text ends before it.
fn find(chars: &[u8], from: usize, c: u8) -> usize
    requires { from ≤ length chars.now }
    ensures low { from ≤ result }
    ensures high { result ≤ length chars.now }
    ensures none { HasNone chars.now c from result }
    ensures one_line { HasNone chars.now 10 from result }
    ensures stops { result < length chars.now → slice_index chars.now result ≢ c → slice_index chars.now result ≡ 10 }
{
    let mut at = from;
    while at < chars.len() && chars[at] != b'\n' && chars[at] != c {
        at += 1;
    }
    at
}
