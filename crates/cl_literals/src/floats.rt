//! Floating constants (N1570 6.4.4.2).

ghost use Rattle.std.specs.Prelude.{◌≡◌, ◌≤◌, length};
ghost use Rattle.cl_literals.specs.Numbers.{exponent_len, floating, floating_base, floating_in, floating_suffix, fraction_len, is_floating, is_marker, marked, power_len, sign_len};

use cl_const::{Base, base_of, digit_count, front_len};
use cl_types::Basic;

/// The type of a floating constant, by its suffix: `double` without one. None comes exactly of what is no floating constant.
pub fn floating(text: &[u8]) -> Option<Basic>
    ensures { result ≡ floating text.now }
{
    let base = base_of(text);
    let (_, rest) = text.split_at(front_len(text, base));
    floating_in(floating_base(base), rest)
}

fn floating_base(base: Base) -> Base
    ensures { result ≡ floating_base base }
{
    match base {
        Base::Hexadecimal => Base::Hexadecimal,
        _ => Base::Decimal,
    }
}

fn floating_in(base: Base, rest: &[u8]) -> Option<Basic>
    ensures { result ≡ floating_in base rest.now }
{
    let whole = digit_count(rest, base);
    let (_, behind) = rest.split_at(whole);
    let fraction = fraction_len(base, behind);
    let (_, behind) = rest.split_at(whole + fraction);
    let exponent = exponent_len(base, behind);
    let (_, suffix) = rest.split_at(whole + fraction + exponent);
    if is_floating(base, whole, fraction, exponent) {
        floating_suffix(suffix)
    } else {
        None
    }
}

/// How long a point and the digits behind it are, if a point stands there.
fn fraction_len(base: Base, text: &[u8]) -> usize
    ensures value { result ≡ fraction_len base text.now }
    ensures within { result ≤ length text.now }
{
    match text {
        [b'.', more @ ..] => 1 + digit_count(more, base),
        _ => 0,
    }
}

fn is_marker(base: Base, byte: u8) -> bool
    ensures { result ≡ is_marker base byte }
{
    match base {
        Base::Hexadecimal => byte == b'p' || byte == b'P',
        _ => byte == b'e' || byte == b'E',
    }
}

fn sign_len(text: &[u8]) -> usize
    ensures value { result ≡ sign_len text.now }
    ensures within { result ≤ length text.now }
{
    match text {
        [b'+' | b'-', ..] => 1,
        _ => 0,
    }
}

/// How long the sign and the digits of an exponent are: 0 without a digit.
fn power_len(text: &[u8]) -> usize
    ensures value { result ≡ power_len text.now }
    ensures within { result ≤ length text.now }
{
    let sign = sign_len(text);
    let (_, more) = text.split_at(sign);
    let digits = digit_count(more, Base::Decimal);
    if digits == 0 { 0 } else { sign + digits }
}

/// How long an exponent is, if one stands there.
fn exponent_len(base: Base, text: &[u8]) -> usize
    ensures value { result ≡ exponent_len base text.now }
    ensures within { result ≤ length text.now }
{
    let Some((first, more)) = text.split_first() else {
        return 0;
    };
    if !is_marker(base, *first) {
        return 0;
    }
    let power = power_len(more);
    if power == 0 { 0 } else { 1 + power }
}

fn floating_suffix(text: &[u8]) -> Option<Basic>
    ensures { result ≡ floating_suffix text.now }
{
    match text {
        [] => Some(Basic::Double),
        [b'f' | b'F'] => Some(Basic::Float),
        [b'l' | b'L'] => Some(Basic::LDouble),
        _ => None,
    }
}

fn is_floating(base: Base, whole: usize, fraction: usize, exponent: usize) -> bool
    ensures { result ≡ is_floating base whole fraction exponent }
{
    let some = 0 < whole || 1 < fraction;
    let decimal = match base {
        Base::Decimal => 0 < fraction,
        _ => false,
    };
    some && (0 < exponent || decimal)
}
