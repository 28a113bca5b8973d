use cl_base::{Mem, Path, Text};
use cl_rpc::{Call, Id, Parsed, message_of};
use std::alloc::Global;
use std::test::Fail;

#[test]
fn bodies(rt: HostRuntime) -> Result<(), Fail> {
    let alloc = rt.alloc();
    for line in table().lines() {
        assert!(rt; line_is_so(alloc, line)?, "{line}");
    }
    let deep = nested(alloc, 127)?;
    assert!(rt; is(alloc, deep.as_slice(), "refused none -32600")?);
    let deeper = nested(alloc, 128)?;
    assert!(rt; is(alloc, deeper.as_slice(), "refused none -32700")?);
    assert!(rt; is(alloc, b"\"\xff\"".as_slice(), "refused none -32700")?);
    Ok(())
}

/// Whether a line's body is what the line says.
fn line_is_so(alloc: Global, line: &str) -> Mem<bool> {
    match line.split_once(" => ") {
        Some((body, wanted)) => is(alloc, body.as_bytes(), wanted),
        None => Ok(false),
    }
}

/// Whether a body is what is told.
fn is(alloc: Global, body: &[u8], wanted: &str) -> Mem<bool> {
    let parsed = message_of(alloc, body)?;
    let told = parsed_told(alloc, &parsed)?;
    Ok(told.as_str() == wanted)
}

/// A list in a list, to this depth.
fn nested(alloc: Global, depth: usize) -> Mem<Vec<u8>> {
    let mut body = Vec::new(alloc);
    for _ in 0..depth {
        body.push(b'[')?;
    }
    for _ in 0..depth {
        body.push(b']')?;
    }
    Ok(body)
}

fn parsed_told(alloc: Global, parsed: &Parsed) -> Mem<String> {
    match parsed {
        Parsed::Request { id, call } => {
            let id = id_told(alloc, id)?;
            let call = call_told(alloc, call)?;
            Ok(format!(in alloc; "request {id} {call}")?)
        }
        Parsed::Notification(call) => {
            let call = call_told(alloc, call)?;
            Ok(format!(in alloc; "notification {call}")?)
        }
        Parsed::Ignored => Ok(String::from_str(alloc, "ignored")?),
        Parsed::Refused { id, code } => {
            let id = match id {
                Some(id) => id_told(alloc, id)?,
                None => String::from_str(alloc, "none")?,
            };
            Ok(format!(in alloc; "refused {id} {code}")?)
        }
    }
}

fn call_told(alloc: Global, call: &Call) -> Mem<String> {
    match call {
        Call::Initialize => Ok(String::from_str(alloc, "initialize")?),
        Call::Shutdown => Ok(String::from_str(alloc, "shutdown")?),
        Call::Exit => Ok(String::from_str(alloc, "exit")?),
        Call::DidOpen(path, version, text) => {
            Ok(format!(in alloc; "open {} {version} {:?}", path.text(), word(text))?)
        }
        Call::DidChange(path, version, Some(text)) => {
            Ok(format!(in alloc; "change {} {version} {:?}", path.text(), word(text))?)
        }
        Call::DidChange(path, version, None) => {
            Ok(format!(in alloc; "change {} {version}", path.text())?)
        }
        Call::DidClose(path) => Ok(format!(in alloc; "close {}", path.text())?),
        Call::Cancel(id) => {
            let id = id_told(alloc, id)?;
            Ok(format!(in alloc; "cancel {id}")?)
        }
        Call::Watched(paths) => watched_told(alloc, paths.as_slice()),
        Call::Symbols(path) => Ok(format!(in alloc; "symbols {}", path.text())?),
        Call::Unknown => Ok(String::from_str(alloc, "unknown")?),
        Call::BadParams(first) => Ok(format!(in alloc; "bad {first}")?),
    }
}

fn watched_told(alloc: Global, paths: &[Path]) -> Mem<String> {
    let mut told = String::from_str(alloc, "watched")?;
    for path in paths {
        told.push_str(" ")?;
        told.push_str(path.text())?;
    }
    Ok(told)
}

fn id_told(alloc: Global, id: &Id) -> Mem<String> {
    match id {
        Id::Number(number) => Ok(format!(in alloc; "{number}")?),
        Id::Text(text) => Ok(format!(in alloc; "'{}'", word(text))?),
    }
}

fn word(text: &Text) -> &str {
    str::from_utf8(text.bytes()).unwrap_or("no text")
}

/// Lines of a body and what it is.
fn table() -> &'static str {
    r#" => refused none -32700
{ => refused none -32700
{}{} => refused none -32700
[] => refused none -32600
1 => refused none -32600
{"id":1,"method":"shutdown"} => refused 1 -32600
{"jsonrpc":"1.0","id":"a","method":"shutdown"} => refused 'a' -32600
{"jsonrpc":2.0,"method":"exit"} => refused none -32600
{"jsonrpc":"2.0"} => refused none -32600
{"jsonrpc":"2.0","id":1,"method":"shutdown"} => request 1 shutdown
{"jsonrpc":"2.0","id":-9223372036854775808,"method":"shutdown"} => request -9223372036854775808 shutdown
{"jsonrpc":"2.0","id":9223372036854775807,"method":"shutdown"} => request 9223372036854775807 shutdown
{"jsonrpc":"2.0","id":9223372036854775808,"method":"shutdown"} => refused none -32600
{"jsonrpc":"2.0","id":1.0,"method":"shutdown"} => refused none -32600
{"jsonrpc":"2.0","id":1.5,"method":"shutdown"} => refused none -32600
{"jsonrpc":"2.0","id":1e2,"method":"shutdown"} => refused none -32600
{"jsonrpc":"2.0","id":"a","method":"shutdown"} => request 'a' shutdown
{"jsonrpc":"2.0","id":null,"method":"shutdown"} => refused none -32600
{"jsonrpc":"2.0","id":[1],"method":"shutdown"} => refused none -32600
{"jsonrpc":"2.0","id":true,"result":1} => refused none -32600
{"jsonrpc":"2.0","id":1,"result":null} => ignored
{"jsonrpc":"2.0","id":1,"method":2} => refused 1 -32600
{"jsonrpc":"2.0","method":null} => refused none -32600
{"params":[],"method":"shutdown","id":7,"extra":{},"jsonrpc":"2.0"} => request 7 shutdown
{"jsonrpc":"2.0","id":1,"id":2,"method":"exit","method":"shutdown"} => request 2 shutdown
{"jsonrpc":"2.0","id":1,"method":"initialize","params":{}} => request 1 initialize
{"jsonrpc":"2.0","id":1,"method":"initialize"} => request 1 bad true
{"jsonrpc":"2.0","id":1,"method":"initialize","params":[]} => request 1 bad true
{"jsonrpc":"2.0","id":1,"method":"exit"} => request 1 unknown
{"jsonrpc":"2.0","id":1,"method":"textDocument/hover"} => request 1 unknown
{"jsonrpc":"2.0","id":1,"method":"textDocument/didClose","params":{"textDocument":{"uri":"file:///a.c"}}} => request 1 unknown
{"jsonrpc":"2.0","method":"shutdown"} => ignored
{"jsonrpc":"2.0","method":"initialized","params":{}} => ignored
{"jsonrpc":"2.0","method":"exit"} => notification exit
{"jsonrpc":"2.0","method":"exit","params":1} => notification exit
{"jsonrpc":"2.0","id":2,"method":"textDocument/documentSymbol","params":{"textDocument":{"uri":"file:///a.c"}}} => request 2 symbols /a.c
{"jsonrpc":"2.0","id":2,"method":"textDocument/documentSymbol","params":{"textDocument":{"uri":"file:///"}}} => request 2 symbols /
{"jsonrpc":"2.0","id":2,"method":"textDocument/documentSymbol","params":{"textDocument":{"uri":"FILE://localhost/p/.././a%20b.c?c#d"}}} => request 2 symbols /a b.c
{"jsonrpc":"2.0","id":2,"method":"textDocument/documentSymbol","params":{"textDocument":{"uri":"http://a.c"}}} => request 2 bad false
{"jsonrpc":"2.0","id":2,"method":"textDocument/documentSymbol","params":{"textDocument":{"uri":"file://host/a.c"}}} => request 2 bad false
{"jsonrpc":"2.0","id":2,"method":"textDocument/documentSymbol","params":{"textDocument":{"uri":"file:///a%00.c"}}} => request 2 bad false
{"jsonrpc":"2.0","id":2,"method":"textDocument/documentSymbol","params":{"textDocument":{"uri":"file:///%FF.c"}}} => request 2 bad false
{"jsonrpc":"2.0","id":2,"method":"textDocument/documentSymbol","params":{"textDocument":{"uri":"file://"}}} => request 2 bad false
{"jsonrpc":"2.0","id":2,"method":"textDocument/documentSymbol","params":{"textDocument":{"uri":3}}} => request 2 bad false
{"jsonrpc":"2.0","id":2,"method":"textDocument/documentSymbol","params":{"textDocument":[]}} => request 2 bad false
{"jsonrpc":"2.0","id":2,"method":"textDocument/documentSymbol","params":{}} => request 2 bad false
{"jsonrpc":"2.0","id":2,"method":"textDocument/documentSymbol"} => request 2 bad false
{"jsonrpc":"2.0","method":"textDocument/didOpen","params":{"textDocument":{"uri":"file:///a.c","languageId":"c","version":1,"text":"int x;\n"}}} => notification open /a.c 1 "int x;\n"
{"jsonrpc":"2.0","method":"textDocument/didOpen","params":{"textDocument":{"uri":"file:///a.c","version":-1,"text":""}}} => notification open /a.c -1 ""
{"jsonrpc":"2.0","method":"textDocument/didOpen","params":{"textDocument":{"uri":"file:///a.c","version":1.0,"text":""}}} => notification bad false
{"jsonrpc":"2.0","method":"textDocument/didOpen","params":{"textDocument":{"uri":"file:///a.c","text":""}}} => notification bad false
{"jsonrpc":"2.0","method":"textDocument/didOpen","params":{"textDocument":{"uri":"file:///a.c","version":1}}} => notification bad false
{"jsonrpc":"2.0","method":"textDocument/didOpen","params":{"textDocument":{"uri":"file:///a.c","version":1,"text":7}}} => notification bad false
{"jsonrpc":"2.0","method":"textDocument/didOpen","params":{"textDocument":{"version":1,"text":""}}} => notification bad false
{"jsonrpc":"2.0","method":"textDocument/didOpen","params":{"textDocument":{"uri":"untitled:a.c","version":1,"text":""}}} => notification bad false
{"jsonrpc":"2.0","method":"textDocument/didOpen","params":{"textDocument":{"uri":"file:///a.c","version":1,"text":"\t ~\n"}}} => notification open /a.c 1 "\t ~\n"
{"jsonrpc":"2.0","method":"textDocument/didOpen","params":{"textDocument":{"uri":"file:///a.c","version":1,"text":"\r\n"}}} => notification open /a.c 1 "\r\n"
{"jsonrpc":"2.0","method":"textDocument/didOpen","params":{"textDocument":{"uri":"file:///a.c","version":1,"text":"\u007f"}}} => notification open /a.c 1 "\u{7f}"
{"jsonrpc":"2.0","method":"textDocument/didOpen","params":{"textDocument":{"uri":"file:///a.c","version":1,"text":"é"}}} => notification open /a.c 1 "é"
{"jsonrpc":"2.0","method":"textDocument/didChange","params":{"textDocument":{"uri":"file:///a.c","version":2},"contentChanges":[]}} => notification change /a.c 2
{"jsonrpc":"2.0","method":"textDocument/didChange","params":{"textDocument":{"uri":"file:///a.c","version":2},"contentChanges":[{"text":"a"},{"text":"b"}]}} => notification change /a.c 2 "b"
{"jsonrpc":"2.0","method":"textDocument/didChange","params":{"textDocument":{"uri":"file:///a.c","version":2},"contentChanges":[{"text":"\r"},{"text":"b"}]}} => notification change /a.c 2 "b"
{"jsonrpc":"2.0","method":"textDocument/didChange","params":{"textDocument":{"uri":"file:///a.c","version":2},"contentChanges":[{"text":"b"},{"text":"\r"}]}} => notification change /a.c 2 "\r"
{"jsonrpc":"2.0","method":"textDocument/didChange","params":{"textDocument":{"uri":"file:///a.c","version":2},"contentChanges":[{"text":1},{"text":"b"}]}} => notification bad false
{"jsonrpc":"2.0","method":"textDocument/didChange","params":{"textDocument":{"uri":"file:///a.c","version":2},"contentChanges":[{"text":"b"},3]}} => notification bad false
{"jsonrpc":"2.0","method":"textDocument/didChange","params":{"textDocument":{"uri":"file:///a.c","version":2},"contentChanges":{}}} => notification bad false
{"jsonrpc":"2.0","method":"textDocument/didChange","params":{"textDocument":{"uri":"file:///a.c","version":2}}} => notification bad false
{"jsonrpc":"2.0","method":"textDocument/didChange","params":{"textDocument":{"uri":"file:///a.c"},"contentChanges":[]}} => notification bad false
{"jsonrpc":"2.0","method":"textDocument/didClose","params":{"textDocument":{"uri":"file:///a.c"}}} => notification close /a.c
{"jsonrpc":"2.0","method":"textDocument/didClose","params":{}} => notification bad false
{"jsonrpc":"2.0","method":"workspace/didChangeWatchedFiles","params":{"changes":[{"uri":"file:///a.h","type":1},{"uri":"file:///b.h","type":3}]}} => notification watched /a.h /b.h
{"jsonrpc":"2.0","method":"workspace/didChangeWatchedFiles","params":{"changes":[]}} => notification watched
{"jsonrpc":"2.0","method":"workspace/didChangeWatchedFiles","params":{"changes":[{"uri":"file:///p//%61.h","type":1},{"uri":"file:/p/a.h","type":2}]}} => notification watched /p/a.h /p/a.h
{"jsonrpc":"2.0","method":"workspace/didChangeWatchedFiles","params":{"changes":[{"uri":"file:///a.h","type":4}]}} => notification bad false
{"jsonrpc":"2.0","method":"workspace/didChangeWatchedFiles","params":{"changes":[{"uri":"file:///a.h","type":1},{"uri":"b.h","type":1}]}} => notification bad false
{"jsonrpc":"2.0","id":3,"method":"workspace/didChangeWatchedFiles","params":{"changes":[]}} => request 3 unknown
{"jsonrpc":"2.0","method":"$/cancelRequest","params":{"id":4}} => notification cancel 4
{"jsonrpc":"2.0","method":"$/cancelRequest","params":{"id":"d"}} => notification cancel 'd'
{"jsonrpc":"2.0","method":"$/cancelRequest","params":{"id":null}} => notification bad false
{"jsonrpc":"2.0","method":"$/cancelRequest"} => notification bad false"#
}
