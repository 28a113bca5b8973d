//! The operand of `#line` (N1570 6.10.4).

ghost use Rattle.std.specs.Prelude.{◌≡◌, ◌≤◌, ◌&&◌, nat_le, IsTrue, ◌↔◌};
ghost use Rattle.std.specs.List.{list_all};
ghost use Rattle.cl_pp.specs.LineNumbers.{after_number, begins_plain, is_digit, is_line_number, is_number_kind, is_plain_string, is_string_kind, misfit, number_from};
ghost use Rattle.cl_pp.specs.code.Numbers.{is_number_of};

use cl_base::{Kind, PpToken};

/// The greatest line number.
const MOST: u64 = 2_147_483_647;

/// The first token that doesn't fit, by its number; that of the tokens, where one is missing.
pub(crate) fn misfit(tokens: &[PpToken]) -> Option<usize>
    ensures { result ≡ misfit tokens.now }
{
    let Some((number, more)) = tokens.split_first() else {
        return Some(0);
    };
    if is_line_number(number) {
        after_number(more)
    } else {
        Some(0)
    }
}

/// The same, behind the number.
fn after_number(tokens: &[PpToken]) -> Option<usize>
    ensures { result ≡ after_number tokens.now }
{
    let (name, more) = tokens.split_first()?;
    if !is_plain_string(name) {
        Some(1)
    } else if more.is_empty() {
        None
    } else {
        Some(2)
    }
}

/// Whether it is a digit sequence of a line's number.
fn is_line_number(token: &PpToken) -> bool
    ensures { result ≡ is_line_number token.now }
{
    is_number_kind(token.kind) && is_number(token.text.bytes())
}

fn is_number_kind(kind: Kind) -> bool
    ensures { result ≡ is_number_kind kind }
{
    matches!(kind, Kind::Number)
}

fn is_string_kind(kind: Kind) -> bool
    ensures { result ≡ is_string_kind kind }
{
    matches!(kind, Kind::Str)
}

/// Whether these are digits of a line's number.
#[tactic(auto, using(crate::proofs::Digits::too_large))]
fn is_number(digits: &[u8]) -> bool
    ensures { result ≡ is_number_of 0 digits.now }
{
    let mut value = 0;
    let mut rest = digits;
    while let Some((digit, behind)) = rest.split_first() {
        rest = behind;
        if *digit < b'0' || *digit > b'9' {
            return false;
        }
        value = 10 * value + (*digit - b'0') as u64;
        if value > MOST {
            return false;
        }
    }
    1 <= value
}

/// Whether it is a string literal without a prefix.
pub(crate) fn is_plain_string(token: &PpToken) -> bool
    ensures { result ≡ is_plain_string token.now }
{
    is_string_kind(token.kind) && begins_plain(token.text.bytes())
}

fn begins_plain(text: &[u8]) -> bool
    ensures { result ≡ begins_plain text.now }
{
    match text.first() {
        Some(byte) => *byte == b'"',
        None => false,
    }
}
