//! The search for a header (N1570 6.10.2): texts in `/s`, folders `/p` and `/q`.

use cl_base::{Config, Known, List, Mem, Path, Text};
use cl_headers::{HeaderMap, MapView, Resolved, one_resolution, resolve, some_resolution};
use std::alloc::Global;
use std::test::Fail;

#[test]
fn searches(rt: HostRuntime) -> Result<(), Fail> {
    let alloc = rt.alloc();
    for line in states_table().lines() {
        assert!(rt; search_is_so(alloc, line)?, "{line}");
    }
    for line in names_table().lines() {
        assert!(rt; search_is_so(alloc, line)?, "{line}");
    }
    one_resolution();
    some_resolution();
    Ok(())
}

/// All states of two candidates: what the search comes to, and what was asked.
fn states_table() -> &'static str {
    "angled k.h: /p/k.h found, /q/k.h found => file /p/k.h; /p/k.h
angled k.h: /p/k.h found, /q/k.h absent => file /p/k.h; /p/k.h
angled k.h: /p/k.h found, /q/k.h failed => file /p/k.h; /p/k.h
angled k.h: /p/k.h found, /q/k.h unknown => file /p/k.h; /p/k.h
angled k.h: /p/k.h absent, /q/k.h found => file /q/k.h; /p/k.h /q/k.h
angled k.h: /p/k.h absent, /q/k.h absent => missing; /p/k.h /q/k.h
angled k.h: /p/k.h absent, /q/k.h failed => failed /q/k.h; /p/k.h /q/k.h
angled k.h: /p/k.h absent, /q/k.h unknown => need /q/k.h; /p/k.h /q/k.h
angled k.h: /p/k.h failed, /q/k.h found => failed /p/k.h; /p/k.h
angled k.h: /p/k.h failed, /q/k.h absent => failed /p/k.h; /p/k.h
angled k.h: /p/k.h failed, /q/k.h failed => failed /p/k.h; /p/k.h
angled k.h: /p/k.h failed, /q/k.h unknown => failed /p/k.h; /p/k.h
angled k.h: /p/k.h unknown, /q/k.h found => need /p/k.h; /p/k.h
angled k.h: /p/k.h unknown, /q/k.h absent => need /p/k.h; /p/k.h
angled k.h: /p/k.h unknown, /q/k.h failed => need /p/k.h; /p/k.h
angled k.h: /p/k.h unknown, /q/k.h unknown => need /p/k.h; /p/k.h"
}

/// Both forms, and names of several parts.
fn names_table() -> &'static str {
    "quoted k.h: /s/k.h found, /p/k.h found => file /s/k.h; /s/k.h
angled k.h: /s/k.h found, /p/k.h found => file /p/k.h; /p/k.h
quoted k.h: /s/k.h absent, /p/k.h absent, /q/k.h found => file /q/k.h; /s/k.h /p/k.h /q/k.h
quoted k.h: /s/k.h absent, /p/k.h absent, /q/k.h absent => missing; /s/k.h /p/k.h /q/k.h
quoted k.h: /s/k.h failed, /p/k.h found => failed /s/k.h; /s/k.h
quoted k.h: /p/k.h found => need /s/k.h; /s/k.h
quoted sys/k.h: /s/sys/k.h absent, /p/sys/k.h found => file /p/sys/k.h; /s/sys/k.h /p/sys/k.h
quoted ../k.h: /k.h found => file /k.h; /k.h
angled ./a/../k.h: /p/k.h found => file /p/k.h; /p/k.h
quoted /a/k.h: /a/k.h found => file /a/k.h; /a/k.h
angled /a/k.h: /a/k.h found => file /a/k.h; /a/k.h
angled /a/b/../k.h: /a/k.h absent, /p/a/k.h found => missing; /a/k.h"
}

fn search_is_so(alloc: Global, line: &str) -> Mem<bool> {
    let Some((given, wanted)) = line.split_once(" => ") else {
        return Ok(false);
    };
    let Some((search, states)) = given.split_once(": ") else {
        return Ok(false);
    };
    let Some((form, name)) = search.split_once(' ') else {
        return Ok(false);
    };
    let map = map_of(alloc, states)?;
    let shown = shown(alloc, &map, name, form == "angled")?;
    Ok(shown.as_str() == wanted)
}

/// The map of these states. A header that is found has its path as its text.
fn map_of(alloc: Global, states: &str) -> Mem<HeaderMap> {
    let mut map = HeaderMap::new(alloc)?;
    for state in states.split(", ") {
        if let Some((path, known)) = state.split_once(' ') {
            let path = Path::new(alloc, path)?;
            put(alloc, &mut map, path, known)?;
        }
    }
    Ok(map)
}

fn put(alloc: Global, map: &mut HeaderMap, path: Path, known: &str) -> Mem<()> {
    if known == "found" {
        let text = Text::new(alloc, path.text().as_bytes())?;
        return map.put(alloc, path, Known::Found(text));
    }
    if known == "absent" {
        return map.put(alloc, path, Known::Absent);
    }
    if known == "failed" {
        return map.put(alloc, path, Known::Failed);
    }
    Ok(())
}

/// What a search comes to, and what was asked.
fn shown(alloc: Global, map: &HeaderMap, name: &str, angled: bool) -> Mem<String> {
    let from = Path::new(alloc, "/s")?;
    let mut folders = List::new(alloc);
    folders.push(Path::new(alloc, "/p")?)?;
    folders.push(Path::new(alloc, "/q")?)?;
    let config = Config::new(alloc, folders, List::new(alloc))?;
    let mut view = MapView::new(alloc, map);
    let resolved = resolve(alloc, &from, name, angled, &config, &mut view)?;
    let mut shown = outcome(alloc, &resolved)?;
    shown.push_str(";")?;
    for path in view.asked().as_slice() {
        shown.push_str(" ")?;
        shown.push_str(path.text())?;
    }
    Ok(shown)
}

fn outcome(alloc: Global, resolved: &Resolved) -> Mem<String> {
    match resolved {
        Resolved::File(path, text) if text.bytes() == path.text().as_bytes() => {
            let shown = format!(in alloc; "file {}", path.text())?;
            Ok(shown)
        }
        Resolved::File(_, _) => {
            let shown = String::from_str(alloc, "another text")?;
            Ok(shown)
        }
        Resolved::Failed(path) => {
            let shown = format!(in alloc; "failed {}", path.text())?;
            Ok(shown)
        }
        Resolved::Need(path) => {
            let shown = format!(in alloc; "need {}", path.text())?;
            Ok(shown)
        }
        Resolved::Missing => {
            let shown = String::from_str(alloc, "missing")?;
            Ok(shown)
        }
    }
}
