//! Texts after phase 4 with the headers that they include.

use cl_base::{Config, EmptyBase, Known, List, Mem, Path, Text};
use cl_cases::unescaped;
use cl_headers::{HeaderMap, MapView};
use cl_pp::{PpAnswer, PpDone, PpState, preprocess};
use std::alloc::Global;
use std::str;

/// What the last of these parts comes to as a text at `/m.c`, where the parts before it tell what is known of headers.
pub(crate) fn tokens_and_asked(alloc: Global, given: &str) -> Mem<Vec<u8>> {
    let (headers, text) = given.rsplit_once(" | ").unwrap_or(("", given));
    let text = unescaped(alloc, text)?;
    let map = known_of(alloc, headers)?;
    let out = shown(alloc, &map, text.as_slice())?;
    Ok(out)
}

/// What these parts tell of headers.
fn known_of(alloc: Global, headers: &str) -> Mem<HeaderMap> {
    let mut map = HeaderMap::new(alloc)?;
    for part in headers.split(" | ") {
        let part = unescaped(alloc, part)?;
        put(alloc, &mut map, part.as_slice())?;
    }
    Ok(map)
}

/// What a text comes to over what is known of headers, and the headers that were asked for.
fn shown(alloc: Global, map: &HeaderMap, text: &[u8]) -> Mem<Vec<u8>> {
    let config = folders(alloc)?;
    let path = Path::new(alloc, "/m.c")?;
    let mut view = MapView::new(alloc, map);
    let start = PpState::start(alloc, &config)?;
    let answer = preprocess(alloc, start, &EmptyBase, &path, text, &config, &mut view)?;
    let mut out = Vec::new(alloc);
    match &answer {
        PpAnswer::Need(path) => {
            let needed = format!(in alloc; "Need {} ", path.text())?;
            out.extend_from_slice(needed.as_bytes())?;
        }
        PpAnswer::Done(done) => push_done(alloc, &mut out, done)?,
    }
    for path in view.asked().as_slice() {
        let asked = format!(in alloc; "?{} ", path.text())?;
        out.extend_from_slice(asked.as_bytes())?;
    }
    let _last = out.pop();
    Ok(out)
}

/// The settings with the folders `/p` and `/q`.
fn folders(alloc: Global) -> Mem<Config> {
    let mut folders = List::new(alloc);
    folders.push(Path::new(alloc, "/p")?)?;
    folders.push(Path::new(alloc, "/q")?)?;
    Config::new(alloc, folders, List::new(alloc))
}

/// Adds what a part tells of a header: its path, then `=` and its text, `-` where it is absent, or `!` where it can't be read.
fn put(alloc: Global, map: &mut HeaderMap, part: &[u8]) -> Mem<()> {
    let part = str::from_utf8(part).unwrap_or("");
    if let Some((path, text)) = part.split_once("=") {
        let text = Text::new(alloc, text.as_bytes())?;
        map.put(alloc, Path::new(alloc, path)?, Known::Found(text))?;
    } else if let Some(path) = part.strip_suffix("-") {
        map.put(alloc, Path::new(alloc, path)?, Known::Absent)?;
    } else if let Some(path) = part.strip_suffix("!") {
        map.put(alloc, Path::new(alloc, path)?, Known::Failed)?;
    }
    Ok(())
}

fn push_done(alloc: Global, out: &mut Vec<u8>, done: &PpDone) -> Mem<()> {
    for token in done.tokens.as_slice() {
        out.extend_from_slice(token.text.bytes())?;
        let place = format!(in alloc; "@{}.{} ", token.at.file, token.at.from)?;
        out.extend_from_slice(place.as_bytes())?;
    }
    for file in done.files.as_slice() {
        out.extend_from_slice(file.text().as_bytes())?;
        out.push(b' ')?;
    }
    for number in done.once.as_slice() {
        let once = format!(in alloc; "#{number} ")?;
        out.extend_from_slice(once.as_bytes())?;
    }
    for fault in done.faults.as_slice() {
        let at = fault.at;
        let one = format!(in alloc; "!{}@{}.{}-{} ", fault.number, at.file, at.from, at.to)?;
        out.extend_from_slice(one.as_bytes())?;
    }
    Ok(())
}
