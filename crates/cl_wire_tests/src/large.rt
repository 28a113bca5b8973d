//! Large inputs through each public call of frames and messages: a small bound behind 'want of memory' shows here.

use cl_base::{Answer, List, Mem, Position, Range, Symbol, Text};
use cl_frames::{Frame, Frames, MemorySink, MemorySource, Written, write_frame};
use cl_rpc::{Call, How, Id, Out, Parsed, Reply, message_of, reply_text};
use std::alloc::Global;
use std::test::Fail;

/// A body of a megabyte.
const BODY: usize = 1_000_000;

/// A document's name.
const NAME: usize = 70_000;

/// The symbols of an answer.
const SYMBOLS: usize = 100_000;

#[test]
fn a_body_of_a_megabyte(rt: HostRuntime) -> Result<(), Fail> {
    let alloc = rt.alloc();
    let body = opened(alloc)?;
    let header = format!(in alloc; "Content-Length: {}\r\n\r\n", body.len())?;
    let mut bytes = header.into_bytes();
    bytes.extend_from_slice(body.as_bytes())?;
    let source = MemorySource::new(alloc, bytes.as_slice(), 65_536, [].as_slice());
    let mut source = source?;
    let mut frames = Frames::new(alloc)?;
    let Frame::Body(text) = frames.read_frame(alloc, &mut source) else {
        return Err(Fail::from("no body"));
    };
    assert!(rt; text.bytes() == body.as_bytes());
    let message = message_of(alloc, text.bytes())?;
    let Parsed::Notification(Call::DidOpen(path, version, text)) = message else {
        return Err(Fail::from("another call"));
    };
    assert_eq!(rt;
        (path.text().len(), version, text.bytes().len()),
        (NAME, 7, BODY)
    );
    let mut sink = MemorySink::new(alloc, 65_536, [].as_slice())?;
    assert_eq!(rt; write_frame(&mut sink, &text), Written::All);
    assert_eq!(rt; sink.held().len(), BODY);
    Ok(())
}

#[test]
fn a_reply_of_many_symbols(rt: HostRuntime) -> Result<(), Fail> {
    let alloc = rt.alloc();
    let symbols = symbols(alloc)?;
    let reply = Reply {
        message: 0,
        mark: 1,
        how: How::Answered,
        id: Some(Id::Number(1)),
        out: Out::Answer(Answer::Symbols(symbols)),
    };
    let text = reply_text(alloc, &reply)?;
    let told = str::from_utf8(text.bytes()).unwrap_or("no text");
    let Some((header, body)) = told.split_once("\r\n\r\n") else {
        return Err(Fail::from("no header"));
    };
    let wanted = format!(in alloc; "Content-Length: {}", body.len())?;
    assert_eq!(rt; header, wanted.as_str());
    let symbol =
        "{\"kind\":13,\"name\":\"x\",\"range\":{\"end\":{\"character\":6,\"line\":4},\"start\":{\"character\":0,\"line\":4}},\"selectionRange\":{\"end\":{\"character\":5,\"line\":4},\"start\":{\"character\":4,\"line\":4}}}";
    let rest = body.strip_prefix("{\"id\":1,\"jsonrpc\":\"2.0\",\"result\":[");
    let Some(list) = rest.and_then(|rest| rest.strip_suffix("]}")) else {
        return Err(Fail::from("another body"));
    };
    let mut count = 0usize;
    for piece in list.split("},{\"kind\"") {
        count = count.saturating_add(1);
        assert!(rt; symbol.contains(piece), "{piece}");
    }
    assert_eq!(rt; count, SYMBOLS);
    assert_eq!(rt;
        list.len(),
        SYMBOLS.saturating_mul(symbol.len() + 1).saturating_sub(1)
    );
    Ok(())
}

/// The body that opens a document with a long name and a long text.
fn opened(alloc: Global) -> Mem<String> {
    let mut body = String::from_str(
        alloc,
        "{\"jsonrpc\":\"2.0\",\"method\":\"textDocument/didOpen\",\"params\":{\"textDocument\":{\"uri\":\"file:///",
    )?;
    add(&mut body, 'n', NAME - 1)?;
    body.push_str("\",\"version\":7,\"text\":\"")?;
    add(&mut body, 't', BODY)?;
    body.push_str("\"}}}")?;
    Ok(body)
}

/// Adds a letter so often.
fn add(body: &mut String, letter: char, count: usize) -> Mem<()> {
    for _ in 0..count {
        body.push(letter)?;
    }
    Ok(())
}

/// Many symbols that are alike.
fn symbols(alloc: Global) -> Mem<List<Symbol>> {
    let place = |character| Position { line: 4, character };
    let mut symbols = List::new(alloc);
    for _ in 0..SYMBOLS {
        symbols.push(Symbol {
            kind: 13,
            name: Text::new(alloc, b"x")?,
            range: Range {
                start: place(0),
                end: place(6),
            },
            selection: Range {
                start: place(4),
                end: place(5),
            },
            children: List::new(alloc),
        })?;
    }
    Ok(symbols)
}
