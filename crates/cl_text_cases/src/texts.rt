//! Whole texts after phase 4.

use cl_base::{Config, EmptyBase, List, Mem, Memory, Path};
use cl_headers::{HeaderMap, MapView};
use cl_pp::{PpAnswer, PpDone, PpState, preprocess};
use std::alloc::Global;

/// The tokens of a text with their places, and its faults with theirs.
pub(crate) fn tokens_and_faults(alloc: Global, text: &[u8]) -> Mem<Vec<u8>> {
    let done = done_of(alloc, text)?;
    let mut out = Vec::new(alloc);
    for token in done.tokens.as_slice() {
        out.extend_from_slice(token.text.bytes())?;
        let place = format!(in alloc; "@{} ", token.at.from)?;
        out.extend_from_slice(place.as_bytes())?;
    }
    for fault in done.faults.as_slice() {
        let one = format!(in alloc; "!{}@{}-{} ", fault.number, fault.at.from, fault.at.to)?;
        out.extend_from_slice(one.as_bytes())?;
    }
    let _last = out.pop();
    Ok(out)
}

/// The macro events of a text, the uses of macros, each with its event and the number of tokens before it, and the names that
/// were looked up.
pub(crate) fn noted(alloc: Global, text: &[u8]) -> Mem<Vec<u8>> {
    let done = done_of(alloc, text)?;
    let mut out = Vec::new(alloc);
    for event in done.events.as_slice() {
        out.push(if event.set.is_some() { b'+' } else { b'-' })?;
        out.extend_from_slice(event.name.bytes())?;
        out.push(b' ')?;
    }
    for one in done.uses.as_slice() {
        let shown = format!(in alloc; "@{}:{}<{} ", one.at.from, one.no.0, one.before)?;
        out.extend_from_slice(shown.as_bytes())?;
    }
    for name in done.looked.as_slice() {
        out.extend_from_slice(name.bytes())?;
        out.push(b',')?;
    }
    Ok(out)
}

/// The tokens of a text, with a space between two, and its number of faults.
pub(crate) fn tokens(alloc: Global, text: &[u8]) -> Mem<Vec<u8>> {
    let done = done_of(alloc, text)?;
    let mut out = Vec::new(alloc);
    for token in done.tokens.as_slice() {
        out.extend_from_slice(token.text.bytes())?;
        out.push(b' ')?;
    }
    let faults = done.faults.len();
    let shown = format!(in alloc; "!{faults}")?;
    out.extend_from_slice(shown.as_bytes())?;
    Ok(out)
}

fn done_of(alloc: Global, text: &[u8]) -> Mem<PpDone> {
    let path = Path::new(alloc, "/a.c")?;
    let config = Config::new(alloc, List::new(alloc), List::new(alloc))?;
    let headers = HeaderMap::new(alloc)?;
    let mut view = MapView::new(alloc, &headers);
    let start = PpState::start(alloc, &config)?;
    match preprocess(alloc, start, &EmptyBase, &path, text, &config, &mut view)? {
        PpAnswer::Done(done) => Ok(done),
        PpAnswer::Need(_) => Err(Memory),
    }
}
