//! Where comments end.

ghost use Rattle.std.specs.Prelude.{◌≡◌, ◌≢◌, ℕ, ◌+◌, ◌-◌, ◌<◌, ◌≤◌, length, slice_index, IfNone, IfSome, MatchOption};
ghost use Rattle.cl_lex.specs.Spelling.{HasNone};
ghost use Rattle.cl_lex.specs.code.Scans.{IsNextStar};

use crate::bytes::stands;
use memchr::memchr;

/// Where the first `*/` from a character on ends, if there is one.
pub(crate) fn comment_end(chars: &[u8], from: usize) -> Option<usize>
    requires { from ≤ length chars.now }
    ensures some { IfSome result (λ to. (from + 2 ≤ to) × (to ≤ length chars.now) × (slice_index chars.now (to - 2) ≡ 42) × (slice_index chars.now (to - 1) ≡ 47)
        × ((i : ℕ) → from ≤ i → i + 2 < to → slice_index chars.now i ≡ 42 → slice_index chars.now (i + 1) ≢ 47)) }
    ensures none { IfNone result ((i : ℕ) → from ≤ i → i + 1 < length chars.now → slice_index chars.now i ≡ 42 → slice_index chars.now (i + 1) ≢ 47) }
{
    let mut at = from;
    while let Some(star) = next_star(chars, at) {
        if stands(chars, star + 1, b'/') {
            return Some(star + 2);
        }
        at = star + 1;
    }
    None
}

/// The first `*` from a character on.
fn next_star(chars: &[u8], from: usize) -> Option<usize>
    requires { from ≤ length chars.now }
    ensures { MatchOption result (HasNone chars.now 42 from (length chars.now)) (λ star. IsNextStar chars.now from star) }
{
    let (_, rest) = chars.split_at(from);
    match memchr(b'*', rest) {
        Some(place) => Some(from + place),
        None => None,
    }
}
