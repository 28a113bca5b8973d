//! Sections and parentheses as deep as the text is long: no stack is.

use cl_base::{Config, Duplicate, EmptyBase, Known, List, Mem, Memory, Path, Text};
use cl_cond::groups;
use cl_headers::{HeaderMap, MapView};
use cl_lex::lex;
use cl_pp::{PpAnswer, PpDone, PpState, preprocess};
use std::alloc::Global;
use std::test::Fail;

/// So many times one text, another one, and so many times a third.
fn around(alloc: Global, count: u32, before: &str, within: &str, behind: &str) -> Mem<Vec<u8>> {
    let mut text = Vec::new(alloc);
    for _ in 0..count {
        text.extend_from_slice(before.as_bytes())?;
    }
    text.extend_from_slice(within.as_bytes())?;
    for _ in 0..count {
        text.extend_from_slice(behind.as_bytes())?;
    }
    Ok(text)
}

/// What a text comes to that may include itself.
fn done_of(alloc: Global, text: &[u8]) -> Mem<PpDone> {
    let path = Path::new(alloc, "/a.c")?;
    let config = Config::new(alloc, List::new(alloc), List::new(alloc))?;
    let mut headers = HeaderMap::new(alloc)?;
    let known = Known::Found(Text::new(alloc, text)?);
    headers.put(alloc, path.duplicate(alloc)?, known)?;
    let mut view = MapView::new(alloc, &headers);
    let start = PpState::start(alloc, &config)?;
    match preprocess(alloc, start, &EmptyBase, &path, text, &config, &mut view)? {
        PpAnswer::Done(done) => Ok(done),
        PpAnswer::Need(_) => Err(Memory),
    }
}

/// How many tokens and faults a text has after phase 4.
fn counts(alloc: Global, text: &[u8]) -> Mem<(usize, usize)> {
    let done = done_of(alloc, text)?;
    Ok((done.tokens.len(), done.faults.len()))
}

#[test]
fn deep_sections_and_parentheses(rt: HostRuntime) -> Result<(), Fail> {
    let alloc = rt.alloc();
    let text = around(alloc, 100_000, "#if 1\n", "a\n", "")?;
    let lexed = lex(alloc, text.as_slice())?;
    let found = groups(alloc, lexed.tokens.as_slice())?;
    assert!(rt; found.marks.len() == 100_001 && found.faults.len() == 100_000);
    assert!(rt;
        counts(alloc, text.as_slice())? == (1, 100_000),
        "no section is ended"
    );
    let text = around(alloc, 100_000, "#if 1\n", "a\n", "#endif\n")?;
    assert!(rt; counts(alloc, text.as_slice())? == (1, 0), "each is ended");
    let mut text = Vec::new(alloc);
    text.extend_from_slice(b"#if ".as_slice())?;
    let condition = around(alloc, 300_000, "(", "1", ")")?;
    text.extend_from_slice(condition.as_slice())?;
    text.extend_from_slice(b"\na\n#endif\n".as_slice())?;
    assert!(rt;
        counts(alloc, text.as_slice())? == (1, 0),
        "the condition holds"
    );
    let text = around(alloc, 30_000, "#if (", "", "")?;
    assert!(rt;
        counts(alloc, text.as_slice())?.1 == 2,
        "nothing stands in them"
    );
    let text = b"#include \"a.c\"\nx\n".as_slice();
    assert!(rt;
        counts(alloc, text)? == (201, 1),
        "200 files, and the line that would lead deeper"
    );
    Ok(())
}
