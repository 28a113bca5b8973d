//! The codes of the characters outside ASCII, by their bytes in UTF-8.

ghost use Rattle.std.specs.Prelude.{◌≡◌, ◌<◌, ◌^◌};
ghost use Rattle.cl_const.specs.Utf8.{code_in, code_point, tail};

use cl_base::char_len;

/// The character that UTF-8 writes as these two, three or four bytes.
pub fn code_point(bytes: &[u8]) -> Option<u64>
    ensures { result ≡ code_point bytes.now }
{
    if char_len(bytes, 0) == bytes.len() {
        code_in(bytes)
    } else {
        None
    }
}

/// The code whose bits these bytes hold.
fn code_in(bytes: &[u8]) -> Option<u64>
    ensures { result ≡ code_in bytes.now }
{
    match bytes {
        [a, b] => Some(tail(u64::from(*a % 32), *b)),
        [a, b, c] => Some(tail(tail(u64::from(*a % 16), *b), *c)),
        [a, b, c, d] => Some(tail(tail(tail(u64::from(*a % 8), *b), *c), *d)),
        _ => None,
    }
}

/// The code, and behind it the six bits of a further byte.
fn tail(code: u64, byte: u8) -> u64
    requires small { code < 2 ^ 20 }
    ensures value { result ≡ tail code byte }
{
    code * 64 + u64::from(byte % 64)
}
