//! How far an external item goes, by its brackets alone.

ghost use Rattle.std.specs.Prelude.{◌≡◌, ◌<◌, ◌≤◌, ◌^◌, ◌&&◌, ◌||◌, not, ℕ, length};
ghost use Rattle.cl_tree.specs.Brackets as b;
ghost use Rattle.cl_parse.specs.Extents as e;

use cl_base::PpToken;

/// Whether the token at a number spells this.
pub(crate) fn spells_at(tokens: &[PpToken], at: usize, text: &[u8]) -> bool
    ensures { result ≡ b.spells_at tokens.now at text.now }
{
    match tokens.get(at) {
        Some(token) => token.text.bytes() == text,
        None => false,
    }
}

/// The partner of the token at a number; past the end 0.
pub(crate) fn partner_at(pairs: &[u32], at: usize) -> usize
    ensures value { result ≡ e.partner pairs.now at }
    ensures room { result < 2 ^ 32 }
{
    match pairs.get(at) {
        Some(partner) => *partner as usize,
        None => 0,
    }
}

/// Whether the token at a number is `;`.
pub(crate) fn is_semicolon(tokens: &[PpToken], at: usize) -> bool
    ensures { result ≡ e.is_semicolon tokens.now at }
{
    spells_at(tokens, at, b";".as_slice())
}

/// Whether the token at a number is `=`.
pub(crate) fn is_equal(tokens: &[PpToken], at: usize) -> bool
    ensures { result ≡ e.is_equal tokens.now at }
{
    spells_at(tokens, at, b"=".as_slice())
}

/// Whether the token at a number is `)` or `]`.
pub(crate) fn is_closing(tokens: &[PpToken], at: usize) -> bool
    ensures { result ≡ e.is_closing tokens.now at }
{
    spells_at(tokens, at, b")".as_slice())
        || spells_at(tokens, at, b"]".as_slice())
        || spells_at(tokens, at, b":>".as_slice())
}

/// Whether the token at a number is `{`.
pub(crate) fn brace_at(tokens: &[PpToken], at: usize) -> bool
    ensures { result ≡ b.brace_at tokens.now at }
{
    spells_at(tokens, at, b"{".as_slice()) || spells_at(tokens, at, b"<%".as_slice())
}

/// Whether a brace group begins there that directly follows `)` or `]`.
#[tactic(auto, unfolding(crate::specs::Extents::begins_body))]
pub(crate) fn begins_body(tokens: &[PpToken], pairs: &[u32], at: usize) -> bool
    ensures { result ≡ e.begins_body tokens.now pairs.now at }
{
    brace_at(tokens, at) && at < partner_at(pairs, at) && is_closing(tokens, at.saturating_sub(1))
}

/// The same, where no `=` goes before it.
fn is_body(tokens: &[PpToken], pairs: &[u32], at: usize, equal: bool) -> bool
    ensures { result ≡ (e.begins_body tokens.now pairs.now at && not equal) }
{
    begins_body(tokens, pairs, at) && !equal
}

fn either(a: bool, b: bool) -> bool
    ensures { result ≡ (a || b) }
{
    a || b
}

/// What stands after a token, or after the bracket group that it begins.
pub(crate) fn past(pairs: &[u32], at: usize) -> usize
    requires room { at < 2 ^ 32 }
    ensures { result ≡ e.past pairs.now at }
{
    let partner = partner_at(pairs, at);
    if at < partner { partner + 1 } else { at + 1 }
}

/// Where an item stops that begins with a token: the first `;` at its depth, or the `{` of its body where no `=` goes before
/// that; the count of the tokens without either.
pub(crate) fn last(tokens: &[PpToken], pairs: &[u32], from: usize) -> usize
    requires room { length tokens.now < 2 ^ 32 }
    requires within { from ≤ length tokens.now }
    ensures within { result ≤ length tokens.now }
    ensures stops { result < length tokens.now → e.Stops tokens.now pairs.now from result }
    ensures first { (i : ℕ) → i < result → e.Stops tokens.now pairs.now from i → ⊥ }
{
    let mut at = from;
    let mut equal = false;
    while at < tokens.len() {
        let semicolon = is_semicolon(tokens, at);
        if semicolon {
            return at;
        }
        let body = is_body(tokens, pairs, at, equal);
        if body {
            return at;
        }
        let sign = is_equal(tokens, at);
        equal = either(equal, sign);
        at = past(pairs, at);
    }
    tokens.len()
}

/// Past a `;`, past a body, or at the end.
pub(crate) fn past_stop(tokens: &[PpToken], pairs: &[u32], at: usize) -> usize
    requires room { length tokens.now < 2 ^ 32 }
    ensures { result ≡ e.past_stop tokens.now pairs.now at }
{
    if at >= tokens.len() {
        return tokens.len();
    }
    if is_semicolon(tokens, at) {
        return at + 1;
    }
    let partner = partner_at(pairs, at);
    if partner < tokens.len() {
        partner + 1
    } else {
        tokens.len()
    }
}
