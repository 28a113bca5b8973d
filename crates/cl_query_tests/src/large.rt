//! Documents of many items and of deep invocations, from their text to their symbols.

use cl_base::{Answer, Config, List, Mem, Memory, Path, Query, Text};
use cl_headers::HeaderMap;
use cl_query::{Job, JobAnswer, run_job};
use std::alloc::Global;

/// How many lines the one document has.
const LINES: usize = 150_000;

/// How many invocations stand in one another in the other.
const DEPTH: usize = 60_000;

/// How many structures stand one behind the other.
const STRUCTURES: usize = 20_000;

/// How many names change behind an item that looks far.
const NAMES: usize = 20_000;

/// A structure without a `;`, and one with other specifiers round it.
const STRUCTURE: &[u8] = b"struct S { int a; }\n";

const SPECIFIED: &[u8] = b"typedef int struct S { int a; } const\n";

/// A function with its body, and an item that is none.
const LINE: &[u8] = b"int a(int b) { return b; } +;\n";

/// An item of a block, and what is none.
const PART: &[u8] = b"b = b + 1; +;\n";

#[test]
fn many_items(rt: HostRuntime) -> Result<(), Memory> {
    let alloc = rt.alloc();
    let mut text = Vec::new(alloc);
    repeat(&mut text, LINE, LINES)?;
    assert!(rt;
        symbols_of(alloc, text)? == LINES,
        "a symbol for each function"
    );
    Ok(())
}

#[test]
fn long_body(rt: HostRuntime) -> Result<(), Memory> {
    let alloc = rt.alloc();
    let mut text = Vec::new(alloc);
    repeat(&mut text, b"int a(int b) {\n", 1)?;
    repeat(&mut text, PART, LINES)?;
    repeat(&mut text, b"}\nint c;\n", 1)?;
    assert!(rt;
        symbols_of(alloc, text)? == 2,
        "the function and what stands behind it"
    );
    Ok(())
}

#[test]
fn bare_structures(rt: HostRuntime) -> Result<(), Memory> {
    let alloc = rt.alloc();
    let mut text = Vec::new(alloc);
    repeat(&mut text, STRUCTURE, STRUCTURES)?;
    repeat(&mut text, b"x +;\nint c;\n", 1)?;
    repeat(&mut text, SPECIFIED, STRUCTURES)?;
    repeat(&mut text, b"x +;\nint d;\n", 1)?;
    assert!(rt; symbols_of(alloc, text)? == 2, "what stands behind them");
    Ok(())
}

#[test]
fn bare_structures_in_body(rt: HostRuntime) -> Result<(), Memory> {
    let alloc = rt.alloc();
    let mut text = Vec::new(alloc);
    repeat(&mut text, b"int a(int b) {\n", 1)?;
    repeat(&mut text, STRUCTURE, STRUCTURES)?;
    repeat(&mut text, b"x +;\n", 1)?;
    repeat(&mut text, SPECIFIED, STRUCTURES)?;
    repeat(&mut text, b"x +;\n}\nint c;\n", 1)?;
    assert!(rt;
        symbols_of(alloc, text)? == 2,
        "the function and what stands behind it"
    );
    Ok(())
}

/// Each `x = {}` is read up to the last `;`, and each function makes a typedef name a name like any other.
#[test]
fn names_change_ahead(rt: HostRuntime) -> Result<(), Memory> {
    let alloc = rt.alloc();
    let mut text = Vec::new(alloc);
    numbered(alloc, &mut text, "typedef int T", ";\n")?;
    numbered(alloc, &mut text, "x = {} int T", "() {}\n")?;
    repeat(&mut text, b"T7 y;\n", 1)?;
    assert!(rt;
        symbols_of(alloc, text)? == 2 * NAMES,
        "the names and the functions, and no object of a type that is none"
    );
    Ok(())
}

#[test]
fn deep_invocations(rt: HostRuntime) -> Result<(), Memory> {
    let alloc = rt.alloc();
    let mut text = Vec::new(alloc);
    repeat(&mut text, b"#define f(a) a\n", 1)?;
    repeat(&mut text, b"f(", DEPTH)?;
    repeat(&mut text, b"int x;", 1)?;
    repeat(&mut text, b")", DEPTH)?;
    assert!(rt;
        symbols_of(alloc, text)? == 1,
        "the one that stands in all of them"
    );
    Ok(())
}

/// Adds so many times these bytes.
fn repeat(text: &mut Vec<u8>, bytes: &[u8], count: usize) -> Mem<()> {
    for _ in 0..count {
        text.extend_from_slice(bytes)?;
    }
    Ok(())
}

/// Adds these bytes with each number between them.
fn numbered(alloc: Global, text: &mut Vec<u8>, before: &str, after: &str) -> Mem<()> {
    for number in 0..NAMES {
        let line = format!(in alloc; "{before}{number}{after}")?;
        text.extend_from_slice(line.as_bytes())?;
    }
    Ok(())
}

/// How many symbols a document has.
fn symbols_of(alloc: Global, text: Vec<u8>) -> Mem<usize> {
    let job = job_of(alloc, text)?;
    count(run_job(alloc, job))
}

/// The job of a query for the symbols of the document.
fn job_of(alloc: Global, text: Vec<u8>) -> Mem<Job> {
    Ok(Job {
        number: 1,
        message: 2,
        mark: 3,
        path: Path::new(alloc, "/a.c")?,
        version: 4,
        text: Text::from_vec(alloc, text)?,
        config: Config::new(alloc, List::new(alloc), List::new(alloc))?,
        headers: HeaderMap::new(alloc)?,
        kind: Query::Symbols,
    })
}

/// How many symbols were found.
fn count(answer: JobAnswer) -> Mem<usize> {
    match answer {
        JobAnswer::Done(done) => match &done.answer {
            Answer::Symbols(symbols) => Ok(symbols.len()),
        },
        JobAnswer::Need(_) | JobAnswer::Memory(_) => Err(Memory),
    }
}
