//! Large inputs through each public call that takes memory: a small bound behind 'want of memory' shows here.

use cl_base::{Mem, Memory, Path, Text};
use cl_store::{Docs, Opened};
use std::alloc::Global;

/// The bytes of a document's text.
const TEXT: usize = 1_000_000;

/// The bytes of its name.
const NAME: usize = 70_000;

#[test]
fn a_document_of_a_megabyte(rt: HostRuntime) -> Result<(), Memory> {
    let alloc = rt.alloc();
    let mut docs = Docs::new(alloc);
    let text = Text::from_vec(alloc, Vec::from_elem(alloc, b't', TEXT)?)?;
    let path = named(alloc)?;
    assert!(rt; docs.open(path, 7, text)? == Opened::New);
    assert!(rt; is_kept(&docs, &named(alloc)?), "it is open with its text");
    Ok(())
}

/// The long name.
fn named(alloc: Global) -> Mem<Path> {
    let mut name = String::from_str(alloc, "/")?;
    for _ in 1..NAME {
        name.push('n')?;
    }
    let path = Path::new(alloc, name.as_str())?;
    Ok(path)
}

/// Whether the document is open with all of its text.
fn is_kept(docs: &Docs, path: &Path) -> bool {
    match docs.text_at(path) {
        Some(doc) => doc.version == 7 && doc.text.bytes().len() == TEXT,
        None => false,
    }
}
