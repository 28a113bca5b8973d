//! When two definitions are the same (N1570 6.10.3p1, p2).

ghost use Rattle.std.specs.Prelude.{◌≡◌, ◌↔◌, IsTrue};
ghost use Rattle.std.specs.Cmp.Lexicographic.{pointwise};
ghost use Rattle.cl_define.specs.Sameness.{IsSame};
ghost use Rattle.cl_define.specs.code.Tokens.{same_list, same_macro, same_names, same_token};

use cl_base::{BodyToken, List, Macro, Name};

/// Whether one may stand where the other does without a fault (N1570 6.10.3p2): both are object-like or both
/// function-like, with the same parameters and identical replacement lists. Their names and places aren't looked at.
pub fn is_same(a: &Macro, b: &Macro) -> bool
    ensures { IsTrue result ↔ IsSame a.now b.now }
{
    same_macro(a, b)
}

fn same_macro(a: &Macro, b: &Macro) -> bool
    ensures { result ≡ same_macro a.now b.now }
{
    same_names(&a.params, &b.params)
        && a.variadic == b.variadic
        && same_list(a.body.as_slice(), b.body.as_slice())
}

fn same_names(a: &Option<List<Name>>, b: &Option<List<Name>>) -> bool
    ensures { result ≡ same_names a.now b.now }
{
    match (a, b) {
        (Some(names), Some(others)) => *names == *others,
        (None, None) => true,
        (Some(_), None) | (None, Some(_)) => false,
    }
}

/// Whether the replacement lists are identical.
fn same_list(a: &[BodyToken], b: &[BodyToken]) -> bool
    ensures { result ≡ same_list a.now b.now }
{
    let Some((first, rest)) = a.split_first() else {
        return b.is_empty();
    };
    match b.split_first() {
        Some((other, others)) => first.text == other.text && same_tokens(rest, others),
        None => false,
    }
}

fn same_token(a: &BodyToken, b: &BodyToken) -> bool
    ensures { result ≡ same_token a.now b.now }
{
    a.text == b.text && a.space == b.space
}

fn same_tokens(a: &[BodyToken], b: &[BodyToken]) -> bool
    ensures { result ≡ pointwise same_token a.now b.now }
{
    let mut these = a;
    let mut those = b;
    while let Some((this, more)) = these.split_first() {
        let Some((that, others)) = those.split_first() else {
            return false;
        };
        if !same_token(this, that) {
            return false;
        }
        these = more;
        those = others;
    }
    those.is_empty()
}
