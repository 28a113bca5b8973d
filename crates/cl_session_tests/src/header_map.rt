use cl_base::{Known, Mem, Path, Text};
use cl_headers::HeaderMap;
use std::alloc::Global;
use std::test::Fail;

#[test]
fn what_was_put_last_is_known(rt: HostRuntime) -> Result<(), Fail> {
    let alloc = rt.alloc();
    let mut headers = HeaderMap::new(alloc)?;
    assert!(rt; found(alloc, &headers, "/a.h")?.is_empty());
    headers.put(
        alloc,
        Path::new(alloc, "/a.h")?,
        Known::Found(Text::new(alloc, b"one")?),
    )?;
    headers.put(
        alloc,
        Path::new(alloc, "/a.h")?,
        Known::Found(Text::new(alloc, b"two")?),
    )?;
    headers.put(alloc, Path::new(alloc, "/b.h")?, Known::Absent)?;
    assert!(rt; found(alloc, &headers, "/a.h")?.as_slice() == b"two".as_slice());
    headers.forget(alloc, &Path::new(alloc, "/a.h")?)?;
    assert!(rt; headers.get(&Path::new(alloc, "/a.h")?).is_none());
    assert!(rt; matches!(headers.get(&Path::new(alloc, "/b.h")?), Some(Known::Absent)));
    Ok(())
}

/// The text that is found at a path, and none where nothing is.
fn found(alloc: Global, headers: &HeaderMap, path: &str) -> Mem<Vec<u8>> {
    let path = Path::new(alloc, path)?;
    let mut text = Vec::new(alloc);
    if let Some(Known::Found(known)) = headers.get(&path) {
        text.extend_from_slice(known.bytes())?;
    }
    Ok(text)
}
