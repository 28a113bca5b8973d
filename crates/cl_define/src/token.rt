//! The tokens of a definition.

ghost use Rattle.std.specs.Prelude.{◌≡◌};
ghost use Rattle.std.specs.List.{position_from};
ghost use Rattle.cl_define.specs.Words.{is_close, is_comma, is_dots, is_lparen, is_mark};

use cl_base::Token;

fn is_mark(token: &Token, mark: &[u8]) -> bool
    ensures { result ≡ is_mark token.now mark.now }
{
    token.kind.is_punct() && token.text.bytes() == mark
}

pub(crate) fn is_comma(token: &Token) -> bool
    ensures { result ≡ is_comma token.now }
{
    is_mark(token, b",".as_slice())
}

pub(crate) fn is_dots(token: &Token) -> bool
    ensures { result ≡ is_dots token.now }
{
    is_mark(token, b"...".as_slice())
}

fn is_close(token: &Token) -> bool
    ensures { result ≡ is_close token.now }
{
    is_mark(token, b")".as_slice())
}

/// Whether it is a `(` without white space before it.
pub(crate) fn is_lparen(token: &Token) -> bool
    ensures { result ≡ is_lparen token.now }
{
    is_mark(token, b"(".as_slice()) && !token.space
}

/// How many tokens stand before the first `)`.
pub(crate) fn close_at(tokens: &[Token]) -> Option<usize>
    ensures { result ≡ position_from is_close 0 tokens.now }
{
    tokens.iter().position(|token| is_close(token))
}
