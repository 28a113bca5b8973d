//! Tokens by their indices.

ghost use Rattle.std.specs.Prelude.{◌≡◌};
ghost use Rattle.cl_parse.specs.Tokens.{is_ident_at, span_at, text_at};

use cl_base::{PpToken, Span};

/// What the token at this index, from 0, spells. From the length on that is nothing.
pub fn text_at(tokens: &[PpToken], at: usize) -> &[u8]
    ensures { result.now ≡ text_at tokens.entry.now at }
{
    match tokens.get(at) {
        Some(token) => token.text.bytes(),
        None => b"".as_slice(),
    }
}

/// Where the token at this index, from 0, lies. From the length on that is at no byte.
pub fn span_at(tokens: &[PpToken], at: usize) -> Span
    ensures { result ≡ span_at tokens.now at }
{
    match tokens.get(at) {
        Some(token) => token.at,
        None => Span {
            file: 0,
            from: 0,
            to: 0,
        },
    }
}

/// Whether the token at this index, from 0, is an identifier or a keyword.
pub(crate) fn is_ident_at(tokens: &[PpToken], at: usize) -> bool
    ensures { result ≡ is_ident_at tokens.now at }
{
    match tokens.get(at) {
        Some(token) => token.kind.is_ident(),
        None => false,
    }
}
