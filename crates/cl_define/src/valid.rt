//! The constraints on a macro that is defined (N1570 6.10.3, 6.10.8).

ghost use Rattle.std.specs.Prelude.{◌≡◌, ℕ, List, ◌∷◌, true, false, not, slice_get, IfOk, MatchOption};
ghost use Rattle.std.specs.List.{list_any};
ghost use Rattle.cl_base.specs.declared.macros.BodyToken.{BodyToken};
ghost use Rattle.cl_define.specs.Words.{has};
ghost use Rattle.cl_define.specs.Bodies.{is_parameter, is_rest, named};
ghost use Rattle.cl_define.specs.Constraints.{are_distinct, begins_with_parameter, hashes_lead, is_valid, keeps_hashes, keeps_pastes, keeps_rest, pastes};
ghost use Rattle.cl_define.specs.code.Sets.{Holds};

use crate::body::{is_paste, is_rest};
use crate::start::is_reserved;
use cl_base::{BodyToken, Duplicate, Macro, Mem, Name, spells_hash};
use std::alloc::Global;
use std::collections::BTreeSet;

/// Whether the macro may be defined so.
pub(crate) fn is_valid(alloc: Global, mac: &Macro) -> Mem<bool>
    ensures { IfOk result (λ valid. valid ≡ is_valid mac.now) }
{
    if is_reserved(mac.name.bytes()) || !keeps_rest(mac) || !keeps_pastes(mac.body.as_slice()) {
        return Ok(false);
    }
    match set_of(alloc, names(mac))? {
        Some(params) => Ok(keeps_hashes(mac, &params)),
        None => Ok(false),
    }
}

fn names(mac: &Macro) -> &[Name]
    ensures { result.now ≡ named mac.now.params }
{
    match &mac.params {
        Some(params) => params.as_slice(),
        None => &[],
    }
}

fn has_rest(names: &[Name]) -> bool
    ensures { result ≡ list_any is_rest names.now }
{
    names.iter().any(|name| is_rest(name.bytes()))
}

fn uses_rest(body: &[BodyToken]) -> bool
    ensures { result ≡ list_any (λ (t : BodyToken). is_rest t.text) body.now }
{
    body.iter().any(|token| is_rest(token.text.bytes()))
}

/// Whether `__VA_ARGS__` stands in the replacement list of a variadic macro alone.
fn keeps_rest(mac: &Macro) -> bool
    ensures { result ≡ keeps_rest mac.now }
{
    if is_rest(mac.name.bytes()) || has_rest(names(mac)) {
        return false;
    }
    mac.variadic || !uses_rest(mac.body.as_slice())
}

fn pastes_at(body: &[BodyToken], i: usize) -> bool
    ensures { result ≡ pastes (slice_get body.now i) }
{
    match body.get(i) {
        Some(token) => is_paste(token),
        None => false,
    }
}

/// Whether `##` stands neither first nor last.
fn keeps_pastes(body: &[BodyToken]) -> bool
    ensures { result ≡ keeps_pastes body.now }
{
    if body.is_empty() {
        return true;
    }
    !pastes_at(body, 0) && !pastes_at(body, body.len() - 1)
}

/// Puts a name into a set, and says whether it is new there.
fn add(alloc: Global, set: &mut BTreeSet<Name>, name: &Name) -> Mem<bool>
    ensures { (names : List (List ℕ)) → Holds set.old names → IfOk result (λ added. (added ≡ not (has names name.now)) × Holds set.new (name.now ∷ names)) }
{
    let copy = name.duplicate(alloc)?;
    let added = set.insert(copy)?;
    Ok(added)
}

/// The set of the names. There is none where a name stands there twice.
fn set_of(alloc: Global, names: &[Name]) -> Mem<Option<BTreeSet<Name>>>
    ensures { IfOk result (λ found. MatchOption found (are_distinct names.now ≡ false) (λ set. (are_distinct names.now ≡ true) × Holds set names.now)) }
{
    let mut set = BTreeSet::new(alloc);
    let mut rest = names;
    while let Some((name, before)) = rest.split_last() {
        if !add(alloc, &mut set, name)? {
            return Ok(None);
        }
        rest = before;
    }
    Ok(Some(set))
}

fn is_parameter(mac: &Macro, params: &BTreeSet<Name>, token: &BodyToken) -> bool
    requires { Holds params.now (named mac.now.params) }
    ensures { result ≡ is_parameter mac.now token.now }
{
    token.kind.is_ident()
        && (params.contains(&token.text) || (mac.variadic && is_rest(token.text.bytes())))
}

fn begins_with_parameter(mac: &Macro, params: &BTreeSet<Name>, tokens: &[BodyToken]) -> bool
    requires { Holds params.now (named mac.now.params) }
    ensures { result ≡ begins_with_parameter mac.now tokens.now }
{
    match tokens.split_first() {
        Some((token, _)) => is_parameter(mac, params, token),
        None => false,
    }
}

/// Whether a parameter follows each `#`.
fn hashes_lead(mac: &Macro, params: &BTreeSet<Name>) -> bool
    requires { Holds params.now (named mac.now.params) }
    ensures { result ≡ hashes_lead mac.now mac.now.body }
{
    let mut rest = mac.body.as_slice();
    while let Some((token, behind)) = rest.split_first() {
        rest = behind;
        if spells_hash(token.text.bytes()) && !begins_with_parameter(mac, params, behind) {
            return false;
        }
    }
    true
}

/// Whether a parameter follows each `#` of a function-like macro.
fn keeps_hashes(mac: &Macro, params: &BTreeSet<Name>) -> bool
    requires { Holds params.now (named mac.now.params) }
    ensures { result ≡ keeps_hashes mac.now }
{
    mac.params.is_none() || hashes_lead(mac, params)
}
