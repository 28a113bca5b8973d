//! Snapshots of what is known of headers: a copy keeps what it had, and work is over the jobs whose snapshots say what it
//! saw.

use cl_base::{Config, Duplicate, Known, List, Mem, Memory, Path, Query, Text};
use cl_headers::{Dep, HeaderMap};
use cl_query::Job;
use std::alloc::Global;

/// The headers of a large session.
const HEADERS: u32 = 10_000;

#[test]
fn a_copy_keeps_what_it_had(rt: HostRuntime) -> Result<(), Memory> {
    let alloc = rt.alloc();
    let mut headers = HeaderMap::new(alloc)?;
    headers.put(alloc, Path::new(alloc, "/a.h")?, Known::Absent)?;
    let before = headers.duplicate(alloc)?;
    let text = Text::new(alloc, b"int a;")?;
    headers.put(alloc, Path::new(alloc, "/a.h")?, Known::Found(text))?;
    headers.put(alloc, Path::new(alloc, "/b.h")?, Known::Failed)?;
    assert!(rt; known(alloc, &before, "/a.h")? == Some(Known::Absent));
    assert!(rt; known(alloc, &before, "/b.h")?.is_none());
    let text = Text::new(alloc, b"int a;")?;
    assert!(rt; known(alloc, &headers, "/a.h")? == Some(Known::Found(text)));
    let later = headers.duplicate(alloc)?;
    headers.forget(alloc, &Path::new(alloc, "/b.h")?)?;
    assert!(rt; known(alloc, &headers, "/b.h")?.is_none());
    assert!(rt; known(alloc, &later, "/b.h")? == Some(Known::Failed));
    assert!(rt; !later.same(&headers) && later.same(&later.duplicate(alloc)?));
    Ok(())
}

#[test]
fn work_is_over_jobs_that_say_what_it_saw(rt: HostRuntime) -> Result<(), Memory> {
    let alloc = rt.alloc();
    let mut headers = HeaderMap::new(alloc)?;
    let first = job(alloc, &headers)?;
    headers.put(alloc, Path::new(alloc, "/a.h")?, Known::Absent)?;
    let second = job(alloc, &headers)?;
    let nothing: [Dep; 0] = [];
    let unknown = [saw(alloc, Known::Unknown)?];
    let absent = [saw(alloc, Known::Absent)?];
    let both = [saw(alloc, Known::Absent)?, saw(alloc, Known::Failed)?];
    assert!(rt; first.is_over(&nothing, &first) && first.is_over(&nothing, &second));
    assert!(rt; first.is_over(&unknown, &first) && !first.is_over(&unknown, &second));
    assert!(rt; !first.is_over(&absent, &first) && first.is_over(&absent, &second));
    assert!(rt; !first.is_over(&both, &second));
    let other = Job {
        number: 1,
        ..second
    };
    assert!(rt; !first.is_over(&nothing, &other));
    Ok(())
}

#[test]
fn many_headers(rt: HostRuntime) -> Result<(), Memory> {
    let alloc = rt.alloc();
    let mut headers = HeaderMap::new(alloc)?;
    let mut snapshots = Vec::new(alloc);
    for number in 0..HEADERS {
        let path = format!(in alloc; "/{number}.h")?;
        snapshots.push(headers.duplicate(alloc)?)?;
        headers.put(alloc, Path::new(alloc, path.as_str())?, Known::Absent)?;
    }
    assert!(rt; known(alloc, &headers, "/9999.h")? == Some(Known::Absent));
    let Some(last) = snapshots.pop() else {
        return Err(Memory);
    };
    assert!(rt; known(alloc, &last, "/9999.h")?.is_none());
    assert!(rt; known(alloc, &last, "/9998.h")? == Some(Known::Absent));
    Ok(())
}

/// What is known of a path.
fn known(alloc: Global, headers: &HeaderMap, path: &str) -> Mem<Option<Known>> {
    let path = Path::new(alloc, path)?;
    match headers.get(&path) {
        Some(known) => {
            let known = known.duplicate(alloc)?;
            Ok(Some(known))
        }
        None => Ok(None),
    }
}

/// What was seen of a header.
fn saw(alloc: Global, known: Known) -> Mem<Dep> {
    let path = Path::new(alloc, "/a.h")?;
    Ok(Dep { path, known })
}

/// A job over what is known of headers.
fn job(alloc: Global, headers: &HeaderMap) -> Mem<Job> {
    Ok(Job {
        number: 0,
        message: 0,
        mark: 0,
        path: Path::new(alloc, "/a.c")?,
        version: 1,
        text: Text::new(alloc, b"int a;")?,
        config: Config::new(alloc, List::new(alloc), List::new(alloc))?,
        headers: headers.duplicate(alloc)?,
        kind: Query::Symbols,
    })
}
