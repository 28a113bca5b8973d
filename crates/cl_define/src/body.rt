//! Replacement lists, and the tokens of them that have a meaning of their own (N1570 6.10.3).

ghost use Rattle.std.specs.Prelude.{◌≡◌, ◌∷◌, [], ◌++◌, map, IfOk, OnOk};
ghost use Rattle.cl_base.specs.declared.token.Token.{Token};
ghost use Rattle.cl_define.specs.Bodies.{body_token, is_paste, is_rest, replacement_list};

use cl_base::{BodyToken, Duplicate, List, Mem, Token};
use std::alloc::Global;

/// The replacement list of these tokens.
pub(crate) fn replacement_list(alloc: Global, tokens: &[Token]) -> Mem<List<BodyToken>>
    ensures { IfOk result (λ list. list ≡ replacement_list tokens.now) }
{
    let mut list = List::new(alloc);
    let Some((first, rest)) = tokens.split_first() else {
        return Ok(list);
    };
    push_token(alloc, &mut list, first, false)?;
    push_tokens(alloc, &mut list, rest)?;
    Ok(list)
}

fn push_tokens(alloc: Global, list: &mut List<BodyToken>, tokens: &[Token]) -> Mem<()>
    ensures { OnOk result (list.new ≡ list.old ++ map (λ (t : Token). body_token t.space t) tokens.now) }
{
    for token in tokens {
        push_token(alloc, list, token, token.space)?;
    }
    Ok(())
}

fn push_token(alloc: Global, list: &mut List<BodyToken>, token: &Token, space: bool) -> Mem<()>
    ensures { OnOk result (list.new ≡ list.old ++ body_token space token.now ∷ []) }
{
    let text = token.text.duplicate(alloc)?;
    list.push(BodyToken {
        kind: token.kind,
        text,
        space,
    })
}

/// Whether it is `__VA_ARGS__`.
pub(crate) fn is_rest(text: &[u8]) -> bool
    ensures { result ≡ is_rest text.now }
{
    text == b"__VA_ARGS__".as_slice()
}

/// Whether it is `##`.
pub(crate) fn is_paste(token: &BodyToken) -> bool
    ensures { result ≡ is_paste token.now }
{
    token.text.bytes() == b"##".as_slice() || token.text.bytes() == b"%:%:".as_slice()
}
