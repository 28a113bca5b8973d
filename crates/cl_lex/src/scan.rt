//! How far names, numbers, blanks and lines go on.

ghost use Rattle.std.specs.Prelude.{◌≡◌, ◌≢◌, ℕ, ◌<◌, ◌≤◌, false, length, slice_index, true};
ghost use Rattle.cl_lex.specs.Bytes.{is_blank, is_name_byte};
ghost use Rattle.cl_lex.specs.Spelling.{AllPass, HasNone, goes_on_number};

use crate::bytes::{is_blank, is_exponent, is_name_byte, is_sign};
use memchr::memchr;

/// Where the letters, `_` and digits end that stand from a character on.
pub(crate) fn name_end(chars: &[u8], from: usize) -> usize
    requires { from ≤ length chars.now }
    ensures low { from ≤ result }
    ensures high { result ≤ length chars.now }
    ensures all { AllPass chars.now is_name_byte from result }
    ensures stops { result < length chars.now → is_name_byte (slice_index chars.now result) ≡ false }
{
    let mut at = from;
    while at < chars.len() && is_name_byte(chars[at]) {
        at += 1;
    }
    at
}

/// Where the white space ends, within a line, that stands from a character on.
pub(crate) fn blank_end(chars: &[u8], from: usize) -> usize
    requires { from ≤ length chars.now }
    ensures low { from ≤ result }
    ensures high { result ≤ length chars.now }
    ensures all { AllPass chars.now is_blank from result }
    ensures stops { result < length chars.now → is_blank (slice_index chars.now result) ≡ false }
{
    let mut at = from;
    while at < chars.len() && is_blank(chars[at]) {
        at += 1;
    }
    at
}

/// Where the line ends, from a character on: at a new-line, or at the end of the text.
pub(crate) fn line_end(chars: &[u8], from: usize) -> usize
    requires { from ≤ length chars.now }
    ensures low { from ≤ result }
    ensures high { result ≤ length chars.now }
    ensures all { HasNone chars.now 10 from result }
    ensures stops { result < length chars.now → slice_index chars.now result ≡ 10 }
{
    let (_, rest) = chars.split_at(from);
    match memchr(b'\n', rest) {
        Some(place) => from + place,
        None => chars.len(),
    }
}

/// Where a preprocessing number ends that began before this character (N1570 6.4.8).
pub(crate) fn number_end(chars: &[u8], from: usize) -> usize
    requires some { 0 < from }
    requires within { from ≤ length chars.now }
    ensures low { from ≤ result }
    ensures high { result ≤ length chars.now }
    ensures all { (i : ℕ) → from ≤ i → i < result → goes_on_number chars.now i ≡ true }
    ensures stops { result < length chars.now → goes_on_number chars.now result ≡ false }
{
    let mut at = from;
    while at < chars.len() && goes_on_number(chars, at) {
        at += 1;
    }
    at
}

/// Whether the character may go on a preprocessing number: a letter, `_`, a digit, a dot, or a sign directly after the
/// letter of an exponent.
fn goes_on_number(chars: &[u8], at: usize) -> bool
    requires some { 0 < at }
    requires within { at < length chars.now }
    ensures { result ≡ goes_on_number chars.now at }
{
    let c = chars[at];
    is_name_byte(c) || c == b'.' || (is_sign(c) && is_exponent(chars[at - 1]))
}
