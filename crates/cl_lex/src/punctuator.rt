//! The punctuators.

ghost use Rattle.std.specs.Prelude.{◌≡◌, ℕ, ◌+◌, ◌<◌, ◌≤◌, length, true};
ghost use Rattle.cl_lex.specs.code.Scans.{is_single};
ghost use Rattle.cl_lex.specs.Punctuators.{is_punctuator, is_punctuator_1, is_punctuator_2, is_punctuator_3, is_punctuator_4};

/// How many characters, 1 to 4, the longest punctuator has that begins here (N1570 6.4.6), and 0 where none begins.
#[inline(always)]
pub(crate) fn punctuator_len(chars: &[u8], at: usize) -> usize
    requires { at < length chars.now }
    ensures within { at + result ≤ length chars.now }
    ensures some { 0 < result → is_punctuator chars.now at result ≡ true }
    ensures longest { (n : ℕ) → result < n → at + n ≤ length chars.now → is_punctuator chars.now at n ≡ true → ⊥ }
{
    if is_single(chars[at]) {
        return 1;
    }
    longest_len(chars, at)
}

/// Whether the character is a punctuator that begins no longer one.
#[inline(always)]
fn is_single(c: u8) -> bool
    ensures { result ≡ is_single c }
{
    matches!(
        c,
        b'(' | b')' | b',' | b';' | b'[' | b']' | b'{' | b'}' | b'?' | b'~'
    )
}

/// The same, by the characters after it.
#[inline(never)]
fn longest_len(chars: &[u8], at: usize) -> usize
    requires { at < length chars.now }
    ensures within { at + result ≤ length chars.now }
    ensures some { 0 < result → is_punctuator chars.now at result ≡ true }
    ensures longest { (n : ℕ) → result < n → at + n ≤ length chars.now → is_punctuator chars.now at n ≡ true → ⊥ }
{
    let left = chars.len() - at;
    if left >= 4 && is_punctuator_4(chars[at], chars[at + 1], chars[at + 2], chars[at + 3]) {
        return 4;
    }
    if left >= 3 && is_punctuator_3(chars[at], chars[at + 1], chars[at + 2]) {
        return 3;
    }
    if left >= 2 && is_punctuator_2(chars[at], chars[at + 1]) {
        return 2;
    }
    if is_punctuator_1(chars[at]) {
        return 1;
    }
    0
}

/// Whether the character is a punctuator.
fn is_punctuator_1(a: u8) -> bool
    ensures { result ≡ is_punctuator_1 a }
{
    matches!(
        a,
        b'!' | b'#' | b'%' | b'&' | b'('..=b'/' | b':'..=b'?' | b'[' | b']' | b'^' | b'{'..=b'~'
    )
}

/// Whether the two characters are a punctuator.
fn is_punctuator_2(a: u8, b: u8) -> bool
    ensures { result ≡ is_punctuator_2 a b }
{
    match a {
        b'+' | b'&' | b'|' => b == a || b == b'=',
        b'-' => matches!(b, b'-' | b'=' | b'>'),
        b'<' => matches!(b, b'<' | b'=' | b':' | b'%'),
        b'>' => matches!(b, b'>' | b'='),
        b'%' => matches!(b, b'=' | b'>' | b':'),
        b'=' | b'!' | b'*' | b'/' | b'^' => b == b'=',
        b'#' => b == b'#',
        b':' => b == b'>',
        _ => false,
    }
}

/// Whether the three characters are a punctuator.
fn is_punctuator_3(a: u8, b: u8, c: u8) -> bool
    ensures { result ≡ is_punctuator_3 a b c }
{
    match a {
        b'.' => b == b'.' && c == b'.',
        b'<' | b'>' => a == b && c == b'=',
        _ => false,
    }
}

/// Whether the four characters are a punctuator.
fn is_punctuator_4(a: u8, b: u8, c: u8, d: u8) -> bool
    ensures { result ≡ is_punctuator_4 a b c d }
{
    a == b'%' && b == b':' && c == b'%' && d == b':'
}
