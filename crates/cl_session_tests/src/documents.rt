use cl_base::{Mem, Path, Text};
use cl_store::{Changed, Closed, Docs, Opened};
use std::alloc::Global;
use std::test::Fail;

#[test]
fn documents(rt: HostRuntime) -> Result<(), Fail> {
    let alloc = rt.alloc();
    let mut docs = Docs::new(alloc);
    assert!(rt; open(alloc, &mut docs, "/a.c", 1, b"one")? == Opened::New);
    assert!(rt; open(alloc, &mut docs, "/b.c", 5, b"other")? == Opened::New);
    assert!(rt; open(alloc, &mut docs, "/a.c", 2, b"two")? == Opened::Again);
    assert!(rt; holds(alloc, &docs, "/a.c", 2, b"two")?);
    assert!(rt; change(alloc, &mut docs, "/a.c", 3, b"three")? == Changed::Done);
    assert!(rt; holds(alloc, &docs, "/a.c", 3, b"three")?);
    assert!(rt; change(alloc, &mut docs, "/c.c", 1, b"new")? == Changed::NotOpen);
    assert!(rt; is_closed(alloc, &docs, "/c.c")?);
    assert!(rt; close(alloc, &mut docs, "/a.c")? == Closed::Done);
    assert!(rt; close(alloc, &mut docs, "/a.c")? == Closed::NotOpen);
    assert!(rt; is_closed(alloc, &docs, "/a.c")?);
    assert!(rt; holds(alloc, &docs, "/b.c", 5, b"other")?);
    Ok(())
}

fn open(alloc: Global, docs: &mut Docs, path: &str, version: i64, text: &[u8]) -> Mem<Opened> {
    let path = Path::new(alloc, path)?;
    let text = Text::new(alloc, text)?;
    docs.open(path, version, text)
}

fn change(alloc: Global, docs: &mut Docs, path: &str, version: i64, text: &[u8]) -> Mem<Changed> {
    let path = Path::new(alloc, path)?;
    let text = Text::new(alloc, text)?;
    docs.change(alloc, &path, version, text)
}

fn close(alloc: Global, docs: &mut Docs, path: &str) -> Mem<Closed> {
    let path = Path::new(alloc, path)?;
    Ok(docs.close(&path))
}

/// Whether the path is open with this version and this text.
fn holds(alloc: Global, docs: &Docs, path: &str, version: i64, text: &[u8]) -> Mem<bool> {
    let path = Path::new(alloc, path)?;
    Ok(match docs.text_at(&path) {
        Some(doc) => doc.version == version && doc.text.bytes() == text,
        None => false,
    })
}

fn is_closed(alloc: Global, docs: &Docs, path: &str) -> Mem<bool> {
    let path = Path::new(alloc, path)?;
    Ok(docs.text_at(&path).is_none())
}
