//! Worked examples.

use cl_base::{Answer, Config, Duplicate, List, Mem, Memory, Path, Query, Symbol, Text};
use cl_headers::HeaderMap;
use cl_query::{Job, JobAnswer, run_job};
use std::alloc::Global;

#[test]
fn lists_the_symbols(rt: HostRuntime) -> Result<(), Memory> {
    for (text, wanted) in [
        ("", ""),
        (
            "int a;int b ;\n\tint  c\n;",
            "13 a 0:0-0:6 0:4-0:5 0;13 b 0:6-0:13 0:10-0:11 0;13 c 1:1-2:1 1:6-1:7 0;",
        ),
        (
            "int int; int 1x; int x y; int ok;",
            "13 ok 0:26-0:33 0:30-0:32 0;",
        ),
        ("int x;\n", "13 x 0:0-0:6 0:4-0:5 0;"),
        ("int x; int y", "13 x 0:0-0:6 0:4-0:5 0;"),
        ("#define M int m;\nM\n", "13 m 1:0-1:1 1:0-1:1 0;"),
        (
            "#define D(a, b) int a; int b;\nD(x,\ny) int z;",
            "13 x 1:0-2:2 1:2-1:3 0;13 y 1:0-2:2 2:0-2:1 0;13 z 2:3-2:9 2:7-2:8 0;",
        ),
        (
            "int a(void){return 1;}\nint b(void){return 1 +;}\nint c(void){return 2;}",
            "12 a 0:0-0:22 0:4-0:5 0;12 b 1:0-1:24 1:4-1:5 0;12 c 2:0-2:22 2:4-2:5 0;",
        ),
        (
            "typedef struct S { int m; } T, *P;\nenum E { A } e, f(T);",
            "23 S 0:0-0:34 0:15-0:16 0;26 T 0:0-0:34 0:28-0:29 0;26 P 0:0-0:34 0:32-0:33 0;10 E 1:0-1:21 1:5-1:6 0;13 e 1:0-1:21 1:13-1:14 0;12 f 1:0-1:21 1:16-1:17 0;",
        ),
        (
            "#define SWAP(a, b) int b, a;\nSWAP(x,\n  y)",
            "13 y 1:0-2:4 2:2-2:3 0;13 x 1:0-2:4 1:5-1:6 0;",
        ),
        (
            "#if 0\nint a;\n#else\nint b;\n#endif\n",
            "13 b 3:0-3:6 3:4-3:5 0;",
        ),
        (
            "int a; /* int b; */ int\\\n c; \"int d;\"; // int e;\n??=\nint \u{1F600}; /*\u{1F600}*/int f;",
            "13 a 0:0-0:6 0:4-0:5 0;13 c 0:20-1:3 1:1-1:2 0;13 f 3:14-3:20 3:18-3:19 0;",
        ),
    ] {
        let found = listed(rt.alloc(), text)?;
        assert_eq!(rt; found.as_str(), wanted, "at {text}");
    }
    Ok(())
}

/// The symbols of a text, as a copy of its job finds them.
fn listed(alloc: Global, text: &str) -> Mem<String> {
    let job = Job {
        number: 1,
        message: 2,
        mark: 3,
        path: Path::new(alloc, "/a.c")?,
        version: 4,
        text: Text::new(alloc, text.as_bytes())?,
        config: Config::new(alloc, List::new(alloc), List::new(alloc))?,
        headers: HeaderMap::new(alloc)?,
        kind: Query::Symbols,
    };
    match run_job(alloc, job.duplicate(alloc)?) {
        JobAnswer::Done(done) => match &done.answer {
            Answer::Symbols(symbols) => lines(alloc, symbols.as_slice()),
        },
        JobAnswer::Need(_) | JobAnswer::Memory(_) => Err(Memory),
    }
}

/// Each symbol with its kind, its name, its range, its name's range and how many children it has.
fn lines(alloc: Global, symbols: &[Symbol]) -> Mem<String> {
    let mut lines = String::new(alloc);
    for symbol in symbols {
        let name = match std::str::from_utf8(symbol.name.bytes()) {
            Ok(name) => name,
            Err(_) => "?",
        };
        let kind = symbol.kind;
        let (start, end) = (symbol.range.start, symbol.range.end);
        let range = format!(in alloc;
            "{}:{}-{}:{}",
            start.line, start.character, end.line, end.character
        )?;
        let (start, end) = (symbol.selection.start, symbol.selection.end);
        let selection = format!(in alloc;
            "{}:{}-{}:{}",
            start.line, start.character, end.line, end.character
        )?;
        let children = symbol.children.len();
        let line = format!(in alloc; "{kind} {name} {range} {selection} {children};")?;
        lines.push_str(line.as_str())?;
    }
    Ok(lines)
}
