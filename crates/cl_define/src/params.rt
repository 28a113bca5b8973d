//! The parameters of a function-like macro (N1570 6.10p1).

ghost use Rattle.std.specs.Prelude.{◌≡◌, IfOk};
ghost use Rattle.cl_define.specs.code.Reading.{last_param, params_of, some_params, with_names};

use crate::token::{is_comma, is_dots};
use cl_base::{Duplicate, List, Mem, Name, Token};
use std::alloc::Global;

/// The named parameters, and whether `...` follows them.
#[derive(Drop)]
pub(crate) struct Params {
    pub names: List<Name>,
    pub variadic: bool,
}

/// The parameters that these tokens are, which stand between the parentheses.
pub(crate) fn params_of(alloc: Global, tokens: &[Token]) -> Mem<Option<Params>>
    ensures { IfOk result (λ found. found ≡ params_of tokens.now) }
{
    if tokens.is_empty() {
        return Ok(Some(Params {
            names: List::new(alloc),
            variadic: false,
        }));
    }
    let found = some_params(alloc, tokens)?;
    Ok(found)
}

/// The parameters that these tokens are, where there is one.
#[tactic(auto, using(crate::proofs::ReadParams::with_names_more, crate::proofs::ReadParams::with_no_names))]
fn some_params(alloc: Global, tokens: &[Token]) -> Mem<Option<Params>>
    ensures { IfOk result (λ found. found ≡ some_params tokens.now) }
{
    let mut names = List::new(alloc);
    let mut rest = tokens;
    while let Some((token, behind)) = rest.split_first() {
        let Some((comma, more)) = behind.split_first() else {
            let found = last_param(alloc, names, token)?;
            return Ok(found);
        };
        if !(token.kind.is_ident() && is_comma(comma)) {
            return Ok(None);
        }
        names.push(token.text.duplicate(alloc)?)?;
        rest = more;
    }
    Ok(None)
}

/// The parameters, of which this token is the last one.
fn last_param(alloc: Global, names: List<Name>, token: &Token) -> Mem<Option<Params>>
    ensures { IfOk result (λ found. found ≡ with_names names (last_param token.now)) }
{
    let mut names = names;
    if is_dots(token) {
        return Ok(Some(Params {
            names,
            variadic: true,
        }));
    }
    if !token.kind.is_ident() {
        return Ok(None);
    }
    names.push(token.text.duplicate(alloc)?)?;
    Ok(Some(Params {
        names,
        variadic: false,
    }))
}
