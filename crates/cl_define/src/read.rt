//! Reads definitions (N1570 6.10p1, 6.10.3).

ghost use Rattle.std.specs.Prelude.{◌≡◌, IfOk, MatchOption};
ghost use Rattle.cl_base.specs.declared.macros.Macro.{Macro};
ghost use Rattle.std.specs.List.{position_from};
ghost use Rattle.cl_define.specs.Words.{is_close};
ghost use Rattle.cl_define.specs.Definitions.{Defines, Stands, object_like};
ghost use Rattle.cl_define.specs.code.Reading.{behind, checked, closed, with_params, written};

use crate::body::replacement_list;
use crate::params::{Params, params_of};
use crate::token::{close_at, is_lparen};
use crate::valid::is_valid;
use cl_base::{Duplicate, List, Macro, Mem, Name, Span, Token};
use std::alloc::Global;

/// The macro that a line defines, by its tokens behind `define` (N1570 6.10.3). `place` is where its name is written.
/// `None` comes exactly where the line defines none: it has none of the forms of 6.10p1, or a constraint is not met
/// (6.10.3p3, p5, p6, 6.10.3.2p1, 6.10.3.3p1, 6.10.8p4).
pub fn read_define(alloc: Global, line: &[Token], place: Span) -> Mem<Option<Macro>>
    ensures { IfOk result (λ found. MatchOption found ((mac : Macro) → Defines place line.now mac → ⊥) (Defines place line.now)) }
{
    let found = written(alloc, line, Some(place))?;
    let found = checked(alloc, found)?;
    Ok(found)
}

/// The object-like macro of this name whose replacement list is these tokens, and that no text defines. `None` comes
/// exactly where no line may define it.
pub fn object_like(alloc: Global, name: &Name, list: &[Token]) -> Mem<Option<Macro>>
    ensures { IfOk result (λ found. MatchOption found ((mac : Macro) → Stands name.now list.now mac → ⊥) (Stands name.now list.now)) }
{
    let mac = object(alloc, name, list, None)?;
    let found = checked(alloc, Some(mac))?;
    Ok(found)
}

/// The macro, if it may be defined.
fn checked(alloc: Global, found: Option<Macro>) -> Mem<Option<Macro>>
    ensures { IfOk result (λ mac. mac ≡ checked found) }
{
    let Some(mac) = found else {
        return Ok(None);
    };
    if is_valid(alloc, &mac)? {
        Ok(Some(mac))
    } else {
        Ok(None)
    }
}

/// What the form of the line says.
fn written(alloc: Global, line: &[Token], place: Option<Span>) -> Mem<Option<Macro>>
    ensures { IfOk result (λ found. found ≡ written place line.now) }
{
    let Some((name, rest)) = line.split_first() else {
        return Ok(None);
    };
    if !name.kind.is_ident() {
        return Ok(None);
    }
    let found = behind(alloc, name, rest, place)?;
    Ok(found)
}

/// What stands behind the name.
fn behind(alloc: Global, name: &Token, tokens: &[Token], place: Option<Span>) -> Mem<Option<Macro>>
    ensures { IfOk result (λ found. found ≡ behind place name.now tokens.now) }
{
    let Some((first, rest)) = tokens.split_first() else {
        let mac = object(alloc, &name.text, tokens, place)?;
        return Ok(Some(mac));
    };
    if is_lparen(first) {
        let found = closed(alloc, name, rest, place)?;
        return Ok(found);
    }
    if !first.space {
        return Ok(None);
    }
    let mac = object(alloc, &name.text, tokens, place)?;
    Ok(Some(mac))
}

/// What stands behind the parenthesis.
fn closed(alloc: Global, name: &Token, tokens: &[Token], place: Option<Span>) -> Mem<Option<Macro>>
    ensures { IfOk result (λ found. found ≡ closed place name.now tokens.now (position_from is_close 0 tokens.now)) }
{
    let Some(at) = close_at(tokens) else {
        return Ok(None);
    };
    let (between, rest) = tokens.split_at(at);
    let params = params_of(alloc, between)?;
    let (_, list) = rest.split_at(1);
    let found = with_params(alloc, name, list, params, place)?;
    Ok(found)
}

fn with_params(
    alloc: Global,
    name: &Token,
    list: &[Token],
    params: Option<Params>,
    place: Option<Span>,
) -> Mem<Option<Macro>>
    ensures { IfOk result (λ found. found ≡ with_params place name.now list.now params) }
{
    let Some(params) = params else {
        return Ok(None);
    };
    let body = replacement_list(alloc, list)?;
    Ok(Some(Macro {
        name: name.text.duplicate(alloc)?,
        params: Some(params.names),
        variadic: params.variadic,
        body,
        place,
    }))
}

fn object(alloc: Global, name: &Name, list: &[Token], place: Option<Span>) -> Mem<Macro>
    ensures { IfOk result (λ mac. mac ≡ object_like place name.now list.now) }
{
    let name = name.duplicate(alloc)?;
    let body = replacement_list(alloc, list)?;
    Ok(Macro {
        name,
        params: None,
        variadic: false,
        body,
        place,
    })
}
