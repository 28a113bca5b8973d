//! Universal character names, and where what is by itself ends.

ghost use Rattle.std.specs.Prelude.{◌≡◌, ◌<◌, ◌≤◌, ◌+◌, length};
ghost use Rattle.cl_lex.specs.Items.{alone_len};
ghost use Rattle.cl_lex.specs.Spelling.{are_hex, universal_len};

use crate::bytes::{is_hex, stands};
use cl_base::char_len;

/// Where the character ends that begins here and is by itself: a universal character name, a character of one or more
/// bytes, or a byte of none.
pub(crate) fn alone_end(chars: &[u8], at: usize) -> usize
    requires { at < length chars.now }
    ensures value { result ≡ at + alone_len chars.now at }
    ensures low { at < result }
    ensures high { result ≤ length chars.now }
{
    at + alone_len(chars, at)
}

/// How many characters that are.
fn alone_len(chars: &[u8], at: usize) -> usize
    requires { at < length chars.now }
    ensures { result ≡ alone_len chars.now at }
{
    char_len(chars, at).max(universal_len(chars, at)).max(1)
}

/// How many characters the universal character name has that begins here, 6 or 10, and 0 where none does (N1570 6.4.3).
fn universal_len(chars: &[u8], at: usize) -> usize
    requires { at < length chars.now }
    ensures { result ≡ universal_len chars.now at }
{
    if !stands(chars, at, b'\\') {
        0
    } else if stands(chars, at + 1, b'u') && are_hex(chars, at + 2, 4) {
        6
    } else if stands(chars, at + 1, b'U') && are_hex(chars, at + 2, 8) {
        10
    } else {
        0
    }
}

/// Whether so many hexadecimal digits stand here.
fn are_hex(chars: &[u8], from: usize, count: usize) -> bool
    requires from { from ≤ length chars.now + 1 }
    requires count { count ≤ 8 }
    ensures { result ≡ are_hex chars.now from count }
{
    if count == 0 {
        return true;
    }
    match chars.get(from) {
        Some(c) => is_hex(*c) && are_hex(chars, from + 1, count - 1),
        None => false,
    }
}
