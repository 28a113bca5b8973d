use cl_base::{Answer, Duplicate, List, Mem, Position, Range, Symbol, Text};
use cl_rpc::{How, Id, Out, Reply, reply_text};
use std::alloc::Global;
use std::test::Fail;

#[test]
fn replies(rt: HostRuntime) -> Result<(), Fail> {
    let alloc = rt.alloc();
    for (id, out, wanted) in cases(alloc)? {
        let reply = Reply {
            message: 0,
            mark: 1,
            how: How::Answered,
            id,
            out,
        };
        let text = reply_text(alloc, &reply)?;
        let told = str::from_utf8(text.bytes()).unwrap_or("no text");
        assert!(rt; told == wanted, "{told}");
    }
    let word = Id::Text(Text::new(alloc, b"a")?);
    let copy = word.duplicate(alloc)?;
    assert!(rt; copy.same(&word));
    assert!(rt; !Id::Number(1).same(&word));
    Ok(())
}

/// Each reply's id and outcome, with its frame.
fn cases(alloc: Global) -> Mem<Vec<(Option<Id>, Out, &'static str)>> {
    let mut cases = Vec::new(alloc);
    cases.push((
        Some(Id::Number(1)),
        Out::Capabilities,
        "Content-Length: 132\r\n\r\n{\"id\":1,\"jsonrpc\":\"2.0\",\"result\":{\"capabilities\":{\"documentSymbolProvider\":true,\"textDocumentSync\":1},\"serverInfo\":{\"name\":\"clsd\"}}}",
    ))?;
    let none = List::new(alloc);
    let one = listed(alloc, b"x", none)?;
    cases.push((
        Some(Id::Number(2)),
        Out::Answer(Answer::Symbols(one)),
        "Content-Length: 215\r\n\r\n{\"id\":2,\"jsonrpc\":\"2.0\",\"result\":[{\"kind\":13,\"name\":\"x\",\"range\":{\"end\":{\"character\":6,\"line\":0},\"start\":{\"character\":0,\"line\":0}},\"selectionRange\":{\"end\":{\"character\":5,\"line\":0},\"start\":{\"character\":4,\"line\":0}}}]}",
    ))?;
    cases.push((
        Some(Id::Number(3)),
        Out::Null,
        "Content-Length: 38\r\n\r\n{\"id\":3,\"jsonrpc\":\"2.0\",\"result\":null}",
    ))?;
    cases.push((
        Some(Id::Number(2)),
        Out::Error(-32602),
        "Content-Length: 75\r\n\r\n{\"error\":{\"code\":-32602,\"message\":\"invalid params\"},\"id\":2,\"jsonrpc\":\"2.0\"}",
    ))?;
    cases.push((
        None,
        Out::Error(-32700),
        "Content-Length: 75\r\n\r\n{\"error\":{\"code\":-32700,\"message\":\"parse error\"},\"id\":null,\"jsonrpc\":\"2.0\"}",
    ))?;
    let torn = Text::new(alloc, &[b'"', 0xe2, 0x82, b'-', 0xff, 0xc3, 0xa9])?;
    cases.push((
        Some(Id::Text(torn)),
        Out::Error(7),
        "Content-Length: 71\r\n\r\n{\"error\":{\"code\":7,\"message\":\"\"},\"id\":\"\\\"\u{fffd}\u{fffd}-\u{fffd}\u{e9}\",\"jsonrpc\":\"2.0\"}",
    ))?;
    let none = List::new(alloc);
    let inner = listed(alloc, &[b'a', 0xed, 0xa0, 0x80], none)?;
    let outer = listed(alloc, b"s", inner)?;
    cases.push((
        Some(Id::Number(-4)),
        Out::Answer(Answer::Symbols(outer)),
        "Content-Length: 418\r\n\r\n{\"id\":-4,\"jsonrpc\":\"2.0\",\"result\":[{\"children\":[{\"kind\":13,\"name\":\"a\u{fffd}\u{fffd}\u{fffd}\",\"range\":{\"end\":{\"character\":6,\"line\":0},\"start\":{\"character\":0,\"line\":0}},\"selectionRange\":{\"end\":{\"character\":5,\"line\":0},\"start\":{\"character\":4,\"line\":0}}}],\"kind\":13,\"name\":\"s\",\"range\":{\"end\":{\"character\":6,\"line\":0},\"start\":{\"character\":0,\"line\":0}},\"selectionRange\":{\"end\":{\"character\":5,\"line\":0},\"start\":{\"character\":4,\"line\":0}}}]}",
    ))?;
    cases.push((
        Some(Id::Number(5)),
        Out::Answer(Answer::Symbols(List::new(alloc))),
        "Content-Length: 36\r\n\r\n{\"id\":5,\"jsonrpc\":\"2.0\",\"result\":[]}",
    ))?;
    Ok(cases)
}

/// A list of one symbol.
fn listed(alloc: Global, name: &[u8], children: List<Symbol>) -> Mem<List<Symbol>> {
    let place = |character| Position { line: 0, character };
    let mut symbols = List::new(alloc);
    symbols.push(Symbol {
        kind: 13,
        name: Text::new(alloc, name)?,
        range: Range {
            start: place(0),
            end: place(6),
        },
        selection: Range {
            start: place(4),
            end: place(5),
        },
        children,
    })?;
    Ok(symbols)
}
