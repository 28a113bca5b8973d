//! Which arguments an invocation needs, and how (N1570 6.10.3.1).

ghost use Rattle.std.specs.Prelude.{◌≡◌, ◌||◌, ◌&&◌, ◌++◌, reverse, IfOk, true, false};
ghost use Rattle.cl_macro.specs.Params.{as_wanted, asked, is_at, is_needed, needed_one, param_at, pastes_next, raws};

use crate::params::{is_param, is_paste, is_string, pastes_next};
use crate::window::Window;
use crate::word::Word;
use cl_base::{BodyToken, List, Macro, Mem};
use std::alloc::Global;

/// Whether a parameter stands as it is wanted: beside `##`, if `raw`, and not, otherwise.
fn is_wanted(raw: bool, after: bool, behind: &[BodyToken]) -> bool
    ensures { result ≡ as_wanted raw (after || pastes_next behind.now) }
{
    if after {
        raw
    } else {
        raw == pastes_next(behind)
    }
}

/// Whether a token is the parameter of this number, and stands as it is wanted.
fn is_match(mac: &Macro, token: &BodyToken, i: usize, wanted: bool) -> bool
    ensures { result ≡ (wanted && is_at i (param_at mac.now token.now)) }
{
    wanted && is_param(mac, token, i)
}

/// Whether the argument of this number is needed: as it stands, if `raw`, and as it is replaced by itself, otherwise.
fn is_needed(mac: &Macro, raw: bool, i: usize) -> bool
    ensures { result ≡ is_needed mac.now raw i }
{
    let mut after = false;
    let mut hash = false;
    let mut rest = mac.body.as_slice();
    while let Some((token, behind)) = rest.split_first() {
        rest = behind;
        if hash {
            if is_match(mac, token, i, raw) {
                return true;
            }
            hash = false;
            after = false;
            continue;
        }
        if is_paste(token) {
            after = true;
            continue;
        }
        if is_string(mac, token) {
            hash = true;
            continue;
        }
        if is_match(mac, token, i, is_wanted(raw, after, behind)) {
            return true;
        }
        after = false;
    }
    false
}

fn asked_one(mac: &Macro, i: usize, arg: Window) -> Window
    ensures { result ≡ needed_one mac.now false i arg }
{
    if is_needed(mac, false, i) {
        arg
    } else {
        Window::none()
    }
}

fn raw_one(alloc: Global, mac: &Macro, i: usize, arg: &Window) -> Mem<List<Word>>
    ensures { IfOk result (λ words. words ≡ needed_one mac.now true i arg.now) }
{
    if is_needed(mac, true, i) {
        let words = arg.words(alloc)?;
        Ok(words)
    } else {
        Ok(List::new(alloc))
    }
}

/// The arguments that are to be replaced, and nothing for another one, the last first.
#[tactic(auto, unfolding(crate::specs::Params::asked))]
pub(crate) fn asked(alloc: Global, mac: &Macro, args: List<Window>) -> Mem<List<Window>>
    ensures { IfOk result (λ all. reverse all ≡ asked mac.now args) }
{
    let mut args = args;
    let mut all = List::new(alloc);
    while let Some(arg) = args.pop() {
        let arg = asked_one(mac, args.len(), arg);
        all.push(arg)?;
    }
    Ok(all)
}

/// The arguments that are needed as they stand, and nothing for another one.
#[tactic(auto, unfolding(crate::specs::Params::raws))]
pub(crate) fn raws(alloc: Global, mac: &Macro, args: &List<Window>) -> Mem<List<List<Word>>>
    ensures { IfOk result (λ all. all ≡ raws mac.now args.now) }
{
    let mut all = List::new(alloc);
    for arg in args.as_slice() {
        all.push(raw_one(alloc, mac, all.len(), arg)?)?;
    }
    Ok(all)
}
