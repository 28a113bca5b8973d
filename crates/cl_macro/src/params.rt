//! The tokens of a macro's body.

ghost use Rattle.std.specs.Prelude.{◌≡◌};
ghost use Rattle.std.specs.List.{position};
ghost use Rattle.cl_macro.specs.Words.{same};
ghost use Rattle.cl_macro.specs.Params.{is_at, is_either, is_paste, is_rest, is_string, named, or_last, param_at, pastes_next, rest_at};

use crate::word::is_ident;
use cl_base::{BodyToken, Macro, Name};

fn or_last(first: Option<usize>, last: Option<usize>) -> Option<usize>
    ensures { result ≡ or_last first last }
{
    match first {
        Some(i) => Some(i),
        None => last,
    }
}

/// Whether the token stands for the rest of the arguments of a variadic macro.
fn is_rest(mac: &Macro, token: &BodyToken) -> bool
    ensures { result ≡ is_rest mac.now token.now }
{
    mac.variadic && token.text.bytes() == b"__VA_ARGS__".as_slice()
}

fn names(mac: &Macro) -> &[Name]
    ensures value { result.now ≡ named mac.now.params }
{
    match &mac.params {
        Some(params) => params.as_slice(),
        None => &[],
    }
}

/// The place of a name.
fn place(names: &[Name], text: &Name) -> Option<usize>
    ensures { result ≡ position (λ name. same name text.now) names.now }
{
    names.iter().position(|name| *name == *text)
}

fn rest_at(mac: &Macro, token: &BodyToken, count: usize) -> Option<usize>
    ensures { result ≡ rest_at mac.now token.now count }
{
    if is_rest(mac, token) {
        Some(count)
    } else {
        None
    }
}

/// The number of the parameter that a token of the body is.
pub(crate) fn param_at(mac: &Macro, token: &BodyToken) -> Option<usize>
    ensures { result ≡ param_at mac.now token.now }
{
    if !is_ident(token.kind) {
        return None;
    }
    let names = names(mac);
    or_last(place(names, &token.text), rest_at(mac, token, names.len()))
}

/// Whether the token is the parameter of this number.
pub(crate) fn is_param(mac: &Macro, token: &BodyToken, i: usize) -> bool
    ensures { result ≡ is_at i (param_at mac.now token.now) }
{
    match param_at(mac, token) {
        Some(j) => i == j,
        None => false,
    }
}

fn is_either(token: &BodyToken, mark: &[u8], digraph: &[u8]) -> bool
    ensures { result ≡ is_either token.now mark.now digraph.now }
{
    token.text.bytes() == mark || token.text.bytes() == digraph
}

/// Whether the token is `##`.
pub(crate) fn is_paste(token: &BodyToken) -> bool
    ensures { result ≡ is_paste token.now }
{
    is_either(token, b"##".as_slice(), b"%:%:".as_slice())
}

/// Whether the token is the operator `#`, as in the body of a function-like macro.
pub(crate) fn is_string(mac: &Macro, token: &BodyToken) -> bool
    ensures { result ≡ is_string mac.now token.now }
{
    mac.params.is_some() && is_either(token, b"#".as_slice(), b"%:".as_slice())
}

/// Whether `##` stands first.
pub(crate) fn pastes_next(tokens: &[BodyToken]) -> bool
    ensures { result ≡ pastes_next tokens.now }
{
    match tokens.first() {
        Some(token) => is_paste(token),
        None => false,
    }
}
