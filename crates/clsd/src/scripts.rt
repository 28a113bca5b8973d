//! Sessions for tests: each line that begins with `> ` is a message, and each that begins with `< ` the reply that it
//! must get.

/// The first session: one document, its symbol, and the end.
pub fn first_session() -> &'static str {
    "> {\"jsonrpc\":\"2.0\",\"id\":1,\"method\":\"initialize\",\"params\":{\"processId\":null,\"rootUri\":null,\"capabilities\":{}}}
< {\"id\":1,\"jsonrpc\":\"2.0\",\"result\":{\"capabilities\":{\"documentSymbolProvider\":true,\"textDocumentSync\":1},\"serverInfo\":{\"name\":\"clsd\"}}}
> {\"jsonrpc\":\"2.0\",\"method\":\"textDocument/didOpen\",\"params\":{\"textDocument\":{\"uri\":\"file:///a.c\",\"languageId\":\"c\",\"version\":1,\"text\":\"int x;\\n\"}}}
> {\"jsonrpc\":\"2.0\",\"id\":2,\"method\":\"textDocument/documentSymbol\",\"params\":{\"textDocument\":{\"uri\":\"file:///a.c\"}}}
< {\"id\":2,\"jsonrpc\":\"2.0\",\"result\":[{\"kind\":13,\"name\":\"x\",\"range\":{\"end\":{\"character\":6,\"line\":0},\"start\":{\"character\":0,\"line\":0}},\"selectionRange\":{\"end\":{\"character\":5,\"line\":0},\"start\":{\"character\":4,\"line\":0}}}]}
> {\"jsonrpc\":\"2.0\",\"id\":3,\"method\":\"shutdown\"}
< {\"id\":3,\"jsonrpc\":\"2.0\",\"result\":null}
> {\"jsonrpc\":\"2.0\",\"method\":\"exit\"}
"
}

/// A document that includes a header: the symbols are its own.
pub fn one_header() -> &'static str {
    "@ /a.h int y;
> {\"jsonrpc\":\"2.0\",\"id\":1,\"method\":\"initialize\",\"params\":{}}
< {\"id\":1,\"jsonrpc\":\"2.0\",\"result\":{\"capabilities\":{\"documentSymbolProvider\":true,\"textDocumentSync\":1},\"serverInfo\":{\"name\":\"clsd\"}}}
> {\"jsonrpc\":\"2.0\",\"method\":\"textDocument/didOpen\",\"params\":{\"textDocument\":{\"uri\":\"file:///m.c\",\"version\":1,\"text\":\"#include \\\"a.h\\\"\\nint z;\\n\"}}}
> {\"jsonrpc\":\"2.0\",\"id\":2,\"method\":\"textDocument/documentSymbol\",\"params\":{\"textDocument\":{\"uri\":\"file:///m.c\"}}}
< {\"id\":2,\"jsonrpc\":\"2.0\",\"result\":[{\"kind\":13,\"name\":\"z\",\"range\":{\"end\":{\"character\":6,\"line\":1},\"start\":{\"character\":0,\"line\":1}},\"selectionRange\":{\"end\":{\"character\":5,\"line\":1},\"start\":{\"character\":4,\"line\":1}}}]}
> {\"jsonrpc\":\"2.0\",\"id\":3,\"method\":\"shutdown\"}
< {\"id\":3,\"jsonrpc\":\"2.0\",\"result\":null}
> {\"jsonrpc\":\"2.0\",\"method\":\"exit\"}
"
}

/// A header whose first read fails: it isn't read again for the next request, and is after a change of it that is announced.
pub fn header_that_failed() -> &'static str {
    "@ /p/k.h #define M int b;
! 0
> {\"jsonrpc\":\"2.0\",\"id\":1,\"method\":\"initialize\",\"params\":{}}
< {\"id\":1,\"jsonrpc\":\"2.0\",\"result\":{\"capabilities\":{\"documentSymbolProvider\":true,\"textDocumentSync\":1},\"serverInfo\":{\"name\":\"clsd\"}}}
> {\"jsonrpc\":\"2.0\",\"method\":\"textDocument/didOpen\",\"params\":{\"textDocument\":{\"uri\":\"file:///m.c\",\"version\":1,\"text\":\"#include <k.h>\\nM\\n\"}}}
> {\"jsonrpc\":\"2.0\",\"id\":2,\"method\":\"textDocument/documentSymbol\",\"params\":{\"textDocument\":{\"uri\":\"file:///m.c\"}}}
< {\"id\":2,\"jsonrpc\":\"2.0\",\"result\":[]}
> {\"jsonrpc\":\"2.0\",\"id\":3,\"method\":\"textDocument/documentSymbol\",\"params\":{\"textDocument\":{\"uri\":\"file:///m.c\"}}}
< {\"id\":3,\"jsonrpc\":\"2.0\",\"result\":[]}
> {\"jsonrpc\":\"2.0\",\"method\":\"workspace/didChangeWatchedFiles\",\"params\":{\"changes\":[{\"uri\":\"file:///p/k.h\",\"type\":2}]}}
> {\"jsonrpc\":\"2.0\",\"id\":4,\"method\":\"textDocument/documentSymbol\",\"params\":{\"textDocument\":{\"uri\":\"file:///m.c\"}}}
< {\"id\":4,\"jsonrpc\":\"2.0\",\"result\":[{\"kind\":13,\"name\":\"b\",\"range\":{\"end\":{\"character\":1,\"line\":1},\"start\":{\"character\":0,\"line\":1}},\"selectionRange\":{\"end\":{\"character\":1,\"line\":1},\"start\":{\"character\":0,\"line\":1}}}]}
> {\"jsonrpc\":\"2.0\",\"method\":\"exit\"}
"
}

/// Each refusal: before `initialize`, of bodies that are no request, of a second `initialize`, of a document that isn't
/// open, of a method and of params, and after `shutdown`. An empty document has no symbols.
pub fn refusals() -> &'static str {
    "> {\"jsonrpc\":\"2.0\",\"id\":1,\"method\":\"shutdown\"}
< {\"error\":{\"code\":-32002,\"message\":\"not initialized\"},\"id\":1,\"jsonrpc\":\"2.0\"}
> {\"jsonrpc\":\"2.0\",\"method\":\"textDocument/didOpen\",\"params\":{\"textDocument\":{\"uri\":\"file:///a.c\",\"version\":1,\"text\":\"\"}}}
> {\"jsonrpc\":\"2.0\",\"id\":1,\"method\":\"initialize\",\"params\":{}}
< {\"id\":1,\"jsonrpc\":\"2.0\",\"result\":{\"capabilities\":{\"documentSymbolProvider\":true,\"textDocumentSync\":1},\"serverInfo\":{\"name\":\"clsd\"}}}
> {\"jsonrpc\":\"2.0\",\"id\":\"again\",\"method\":\"initialize\",\"params\":{}}
< {\"error\":{\"code\":-32600,\"message\":\"invalid request\"},\"id\":\"again\",\"jsonrpc\":\"2.0\"}
> {\"jsonrpc\":\"2.0\",\"id\":2,\"method\":\"textDocument/documentSymbol\",\"params\":{\"textDocument\":{\"uri\":\"file:///a.c\"}}}
< {\"error\":{\"code\":-32602,\"message\":\"invalid params\"},\"id\":2,\"jsonrpc\":\"2.0\"}
> 
< {\"error\":{\"code\":-32700,\"message\":\"parse error\"},\"id\":null,\"jsonrpc\":\"2.0\"}
> []
< {\"error\":{\"code\":-32600,\"message\":\"invalid request\"},\"id\":null,\"jsonrpc\":\"2.0\"}
> {\"jsonrpc\":\"2.0\",\"id\":3,\"method\":\"textDocument/didOpen\"}
< {\"error\":{\"code\":-32601,\"message\":\"method not found\"},\"id\":3,\"jsonrpc\":\"2.0\"}
> {\"jsonrpc\":\"2.0\",\"id\":4,\"method\":\"textDocument/documentSymbol\",\"params\":{}}
< {\"error\":{\"code\":-32602,\"message\":\"invalid params\"},\"id\":4,\"jsonrpc\":\"2.0\"}
> {\"jsonrpc\":\"2.0\",\"method\":\"textDocument/didOpen\",\"params\":{\"textDocument\":{\"uri\":\"file:///a.c\",\"version\":1,\"text\":\"\"}}}
> {\"jsonrpc\":\"2.0\",\"id\":5,\"method\":\"textDocument/documentSymbol\",\"params\":{\"textDocument\":{\"uri\":\"file:///a.c\"}}}
< {\"id\":5,\"jsonrpc\":\"2.0\",\"result\":[]}
> {\"jsonrpc\":\"2.0\",\"id\":6,\"method\":\"shutdown\"}
< {\"id\":6,\"jsonrpc\":\"2.0\",\"result\":null}
> {\"jsonrpc\":\"2.0\",\"id\":7,\"method\":\"textDocument/documentSymbol\",\"params\":{\"textDocument\":{\"uri\":\"file:///a.c\"}}}
< {\"error\":{\"code\":-32600,\"message\":\"invalid request\"},\"id\":7,\"jsonrpc\":\"2.0\"}
> {\"jsonrpc\":\"2.0\",\"method\":\"exit\"}
"
}

/// A document that changes and closes, a cancel of what isn't pending, a notification that isn't known, and an `exit`
/// without a `shutdown`.
pub fn edits() -> &'static str {
    "> {\"jsonrpc\":\"2.0\",\"id\":1,\"method\":\"initialize\",\"params\":{}}
< {\"id\":1,\"jsonrpc\":\"2.0\",\"result\":{\"capabilities\":{\"documentSymbolProvider\":true,\"textDocumentSync\":1},\"serverInfo\":{\"name\":\"clsd\"}}}
> {\"jsonrpc\":\"2.0\",\"method\":\"textDocument/didOpen\",\"params\":{\"textDocument\":{\"uri\":\"file:///a.c\",\"version\":1,\"text\":\"\"}}}
> {\"jsonrpc\":\"2.0\",\"method\":\"textDocument/didChange\",\"params\":{\"textDocument\":{\"uri\":\"file:///a.c\",\"version\":2},\"contentChanges\":[{\"text\":\"int a;\"},{\"text\":\"int b;\"}]}}
> {\"jsonrpc\":\"2.0\",\"method\":\"textDocument/didChange\",\"params\":{\"textDocument\":{\"uri\":\"file:///other.c\",\"version\":2},\"contentChanges\":[{\"text\":\"int c;\"}]}}
> {\"jsonrpc\":\"2.0\",\"method\":\"$/cancelRequest\",\"params\":{\"id\":1}}
> {\"jsonrpc\":\"2.0\",\"method\":\"window/workDoneProgress/cancel\",\"params\":{\"token\":1}}
> {\"jsonrpc\":\"2.0\",\"id\":2,\"method\":\"textDocument/documentSymbol\",\"params\":{\"textDocument\":{\"uri\":\"file:///a.c\"}}}
< {\"id\":2,\"jsonrpc\":\"2.0\",\"result\":[{\"kind\":13,\"name\":\"b\",\"range\":{\"end\":{\"character\":6,\"line\":0},\"start\":{\"character\":0,\"line\":0}},\"selectionRange\":{\"end\":{\"character\":5,\"line\":0},\"start\":{\"character\":4,\"line\":0}}}]}
> {\"jsonrpc\":\"2.0\",\"id\":3,\"method\":\"textDocument/documentSymbol\",\"params\":{\"textDocument\":{\"uri\":\"file:///other.c\"}}}
< {\"error\":{\"code\":-32602,\"message\":\"invalid params\"},\"id\":3,\"jsonrpc\":\"2.0\"}
> {\"jsonrpc\":\"2.0\",\"method\":\"textDocument/didClose\",\"params\":{\"textDocument\":{\"uri\":\"file:///a.c\"}}}
> {\"jsonrpc\":\"2.0\",\"id\":4,\"method\":\"textDocument/documentSymbol\",\"params\":{\"textDocument\":{\"uri\":\"file:///a.c\"}}}
< {\"error\":{\"code\":-32602,\"message\":\"invalid params\"},\"id\":4,\"jsonrpc\":\"2.0\"}
> {\"jsonrpc\":\"2.0\",\"method\":\"exit\"}
"
}

/// A session whose input ends at a frame's edge.
pub fn no_exit() -> &'static str {
    "> {\"jsonrpc\":\"2.0\",\"id\":1,\"method\":\"shutdown\"}
< {\"error\":{\"code\":-32002,\"message\":\"not initialized\"},\"id\":1,\"jsonrpc\":\"2.0\"}
"
}

/// Five documents that are opened, changed, closed and opened again, and asked in between.
pub fn five_documents() -> &'static str {
    "> {\"jsonrpc\":\"2.0\",\"id\":\"first\",\"method\":\"initialize\",\"params\":{}}
< {\"id\":\"first\",\"jsonrpc\":\"2.0\",\"result\":{\"capabilities\":{\"documentSymbolProvider\":true,\"textDocumentSync\":1},\"serverInfo\":{\"name\":\"clsd\"}}}
> {\"jsonrpc\":\"2.0\",\"method\":\"textDocument/didOpen\",\"params\":{\"textDocument\":{\"uri\":\"file:///a.c\",\"version\":1,\"text\":\"int a;\"}}}
> {\"jsonrpc\":\"2.0\",\"method\":\"textDocument/didOpen\",\"params\":{\"textDocument\":{\"uri\":\"file:///b.c\",\"version\":1,\"text\":\"int b;int bb;\"}}}
> {\"jsonrpc\":\"2.0\",\"method\":\"textDocument/didOpen\",\"params\":{\"textDocument\":{\"uri\":\"file:///c.c\",\"version\":1,\"text\":\"\"}}}
> {\"jsonrpc\":\"2.0\",\"method\":\"textDocument/didOpen\",\"params\":{\"textDocument\":{\"uri\":\"file:///d.c\",\"version\":1,\"text\":\"int d\"}}}
> {\"jsonrpc\":\"2.0\",\"method\":\"textDocument/didOpen\",\"params\":{\"textDocument\":{\"uri\":\"file:///e.c\",\"version\":1,\"text\":\"\\tint e ;\\n\"}}}
> {\"jsonrpc\":\"2.0\",\"id\":1,\"method\":\"textDocument/documentSymbol\",\"params\":{\"textDocument\":{\"uri\":\"file:///a.c\"}}}
< {\"id\":1,\"jsonrpc\":\"2.0\",\"result\":[{\"kind\":13,\"name\":\"a\",\"range\":{\"end\":{\"character\":6,\"line\":0},\"start\":{\"character\":0,\"line\":0}},\"selectionRange\":{\"end\":{\"character\":5,\"line\":0},\"start\":{\"character\":4,\"line\":0}}}]}
> {\"jsonrpc\":\"2.0\",\"id\":2,\"method\":\"textDocument/documentSymbol\",\"params\":{\"textDocument\":{\"uri\":\"file:///b.c\"}}}
< {\"id\":2,\"jsonrpc\":\"2.0\",\"result\":[{\"kind\":13,\"name\":\"b\",\"range\":{\"end\":{\"character\":6,\"line\":0},\"start\":{\"character\":0,\"line\":0}},\"selectionRange\":{\"end\":{\"character\":5,\"line\":0},\"start\":{\"character\":4,\"line\":0}}},{\"kind\":13,\"name\":\"bb\",\"range\":{\"end\":{\"character\":13,\"line\":0},\"start\":{\"character\":6,\"line\":0}},\"selectionRange\":{\"end\":{\"character\":12,\"line\":0},\"start\":{\"character\":10,\"line\":0}}}]}
> {\"jsonrpc\":\"2.0\",\"id\":3,\"method\":\"textDocument/documentSymbol\",\"params\":{\"textDocument\":{\"uri\":\"file:///c.c\"}}}
< {\"id\":3,\"jsonrpc\":\"2.0\",\"result\":[]}
> {\"jsonrpc\":\"2.0\",\"id\":4,\"method\":\"textDocument/documentSymbol\",\"params\":{\"textDocument\":{\"uri\":\"file:///d.c\"}}}
< {\"id\":4,\"jsonrpc\":\"2.0\",\"result\":[]}
> {\"jsonrpc\":\"2.0\",\"id\":5,\"method\":\"textDocument/documentSymbol\",\"params\":{\"textDocument\":{\"uri\":\"file:///e.c\"}}}
< {\"id\":5,\"jsonrpc\":\"2.0\",\"result\":[{\"kind\":13,\"name\":\"e\",\"range\":{\"end\":{\"character\":8,\"line\":0},\"start\":{\"character\":1,\"line\":0}},\"selectionRange\":{\"end\":{\"character\":6,\"line\":0},\"start\":{\"character\":5,\"line\":0}}}]}
> {\"jsonrpc\":\"2.0\",\"method\":\"textDocument/didChange\",\"params\":{\"textDocument\":{\"uri\":\"file:///c.c\",\"version\":2},\"contentChanges\":[{\"text\":\"int c;\\n int cc ;\"}]}}
> {\"jsonrpc\":\"2.0\",\"method\":\"textDocument/didChange\",\"params\":{\"textDocument\":{\"uri\":\"file:///b.c\",\"version\":2},\"contentChanges\":[]}}
> {\"jsonrpc\":\"2.0\",\"method\":\"textDocument/didChange\",\"params\":{\"textDocument\":{\"uri\":\"file:///d.c\",\"version\":2},\"contentChanges\":[{\"text\":\"int wrong;\"},{\"text\":\"int\\nright\\n;\"}]}}
> {\"jsonrpc\":\"2.0\",\"method\":\"textDocument/didClose\",\"params\":{\"textDocument\":{\"uri\":\"file:///a.c\"}}}
> {\"jsonrpc\":\"2.0\",\"id\":6,\"method\":\"textDocument/documentSymbol\",\"params\":{\"textDocument\":{\"uri\":\"file:///a.c\"}}}
< {\"error\":{\"code\":-32602,\"message\":\"invalid params\"},\"id\":6,\"jsonrpc\":\"2.0\"}
> {\"jsonrpc\":\"2.0\",\"id\":7,\"method\":\"textDocument/documentSymbol\",\"params\":{\"textDocument\":{\"uri\":\"file:///b.c\"}}}
< {\"id\":7,\"jsonrpc\":\"2.0\",\"result\":[{\"kind\":13,\"name\":\"b\",\"range\":{\"end\":{\"character\":6,\"line\":0},\"start\":{\"character\":0,\"line\":0}},\"selectionRange\":{\"end\":{\"character\":5,\"line\":0},\"start\":{\"character\":4,\"line\":0}}},{\"kind\":13,\"name\":\"bb\",\"range\":{\"end\":{\"character\":13,\"line\":0},\"start\":{\"character\":6,\"line\":0}},\"selectionRange\":{\"end\":{\"character\":12,\"line\":0},\"start\":{\"character\":10,\"line\":0}}}]}
> {\"jsonrpc\":\"2.0\",\"id\":8,\"method\":\"textDocument/documentSymbol\",\"params\":{\"textDocument\":{\"uri\":\"file:///c.c\"}}}
< {\"id\":8,\"jsonrpc\":\"2.0\",\"result\":[{\"kind\":13,\"name\":\"c\",\"range\":{\"end\":{\"character\":6,\"line\":0},\"start\":{\"character\":0,\"line\":0}},\"selectionRange\":{\"end\":{\"character\":5,\"line\":0},\"start\":{\"character\":4,\"line\":0}}},{\"kind\":13,\"name\":\"cc\",\"range\":{\"end\":{\"character\":9,\"line\":1},\"start\":{\"character\":1,\"line\":1}},\"selectionRange\":{\"end\":{\"character\":7,\"line\":1},\"start\":{\"character\":5,\"line\":1}}}]}
> {\"jsonrpc\":\"2.0\",\"id\":9,\"method\":\"textDocument/documentSymbol\",\"params\":{\"textDocument\":{\"uri\":\"file:///d.c\"}}}
< {\"id\":9,\"jsonrpc\":\"2.0\",\"result\":[{\"kind\":13,\"name\":\"right\",\"range\":{\"end\":{\"character\":1,\"line\":2},\"start\":{\"character\":0,\"line\":0}},\"selectionRange\":{\"end\":{\"character\":5,\"line\":1},\"start\":{\"character\":0,\"line\":1}}}]}
> {\"jsonrpc\":\"2.0\",\"method\":\"textDocument/didChange\",\"params\":{\"textDocument\":{\"uri\":\"file:///b.c\",\"version\":2},\"contentChanges\":[{\"text\":\"\"}]}}
> {\"jsonrpc\":\"2.0\",\"method\":\"textDocument/didChange\",\"params\":{\"textDocument\":{\"uri\":\"file:///a.c\",\"version\":2},\"contentChanges\":[{\"text\":\"int gone;\"}]}}
> {\"jsonrpc\":\"2.0\",\"method\":\"textDocument/didOpen\",\"params\":{\"textDocument\":{\"uri\":\"file:///a.c\",\"version\":1,\"text\":\"int again;\"}}}
> {\"jsonrpc\":\"2.0\",\"method\":\"textDocument/didClose\",\"params\":{\"textDocument\":{\"uri\":\"file:///e.c\"}}}
> {\"jsonrpc\":\"2.0\",\"method\":\"textDocument/didClose\",\"params\":{\"textDocument\":{\"uri\":\"file:///e.c\"}}}
> {\"jsonrpc\":\"2.0\",\"id\":10,\"method\":\"textDocument/documentSymbol\",\"params\":{\"textDocument\":{\"uri\":\"file:///a.c\"}}}
< {\"id\":10,\"jsonrpc\":\"2.0\",\"result\":[{\"kind\":13,\"name\":\"again\",\"range\":{\"end\":{\"character\":10,\"line\":0},\"start\":{\"character\":0,\"line\":0}},\"selectionRange\":{\"end\":{\"character\":9,\"line\":0},\"start\":{\"character\":4,\"line\":0}}}]}
> {\"jsonrpc\":\"2.0\",\"id\":11,\"method\":\"textDocument/documentSymbol\",\"params\":{\"textDocument\":{\"uri\":\"file:///b.c\"}}}
< {\"id\":11,\"jsonrpc\":\"2.0\",\"result\":[]}
> {\"jsonrpc\":\"2.0\",\"id\":12,\"method\":\"textDocument/documentSymbol\",\"params\":{\"textDocument\":{\"uri\":\"file:///e.c\"}}}
< {\"error\":{\"code\":-32602,\"message\":\"invalid params\"},\"id\":12,\"jsonrpc\":\"2.0\"}
> {\"jsonrpc\":\"2.0\",\"id\":99,\"method\":\"shutdown\"}
< {\"id\":99,\"jsonrpc\":\"2.0\",\"result\":null}
> {\"jsonrpc\":\"2.0\",\"method\":\"exit\"}
"
}

/// Two and more URIs of one document, and URIs that name no path.
pub fn two_uris() -> &'static str {
    "> {\"jsonrpc\":\"2.0\",\"id\":1,\"method\":\"initialize\",\"params\":{}}
< {\"id\":1,\"jsonrpc\":\"2.0\",\"result\":{\"capabilities\":{\"documentSymbolProvider\":true,\"textDocumentSync\":1},\"serverInfo\":{\"name\":\"clsd\"}}}
> {\"jsonrpc\":\"2.0\",\"method\":\"textDocument/didOpen\",\"params\":{\"textDocument\":{\"uri\":\"file:///p/a%20b.c\",\"version\":1,\"text\":\"int a;\"}}}
> {\"jsonrpc\":\"2.0\",\"id\":2,\"method\":\"textDocument/documentSymbol\",\"params\":{\"textDocument\":{\"uri\":\"FILE://localhost/p//x/../a b.c?q#f\"}}}
< {\"id\":2,\"jsonrpc\":\"2.0\",\"result\":[{\"kind\":13,\"name\":\"a\",\"range\":{\"end\":{\"character\":6,\"line\":0},\"start\":{\"character\":0,\"line\":0}},\"selectionRange\":{\"end\":{\"character\":5,\"line\":0},\"start\":{\"character\":4,\"line\":0}}}]}
> {\"jsonrpc\":\"2.0\",\"method\":\"textDocument/didChange\",\"params\":{\"textDocument\":{\"uri\":\"file:/p/./a%20b.c\",\"version\":2},\"contentChanges\":[{\"text\":\"int b;\"}]}}
> {\"jsonrpc\":\"2.0\",\"id\":3,\"method\":\"textDocument/documentSymbol\",\"params\":{\"textDocument\":{\"uri\":\"file:///p/a%20b.c\"}}}
< {\"id\":3,\"jsonrpc\":\"2.0\",\"result\":[{\"kind\":13,\"name\":\"b\",\"range\":{\"end\":{\"character\":6,\"line\":0},\"start\":{\"character\":0,\"line\":0}},\"selectionRange\":{\"end\":{\"character\":5,\"line\":0},\"start\":{\"character\":4,\"line\":0}}}]}
> {\"jsonrpc\":\"2.0\",\"id\":4,\"method\":\"textDocument/documentSymbol\",\"params\":{\"textDocument\":{\"uri\":\"file:///p/a%2520b.c\"}}}
< {\"error\":{\"code\":-32602,\"message\":\"invalid params\"},\"id\":4,\"jsonrpc\":\"2.0\"}
> {\"jsonrpc\":\"2.0\",\"id\":5,\"method\":\"textDocument/documentSymbol\",\"params\":{\"textDocument\":{\"uri\":\"file://host/p/a%20b.c\"}}}
< {\"error\":{\"code\":-32602,\"message\":\"invalid params\"},\"id\":5,\"jsonrpc\":\"2.0\"}
> {\"jsonrpc\":\"2.0\",\"method\":\"textDocument/didOpen\",\"params\":{\"textDocument\":{\"uri\":\"untitled:a.c\",\"version\":1,\"text\":\"int c;\"}}}
> {\"jsonrpc\":\"2.0\",\"id\":6,\"method\":\"textDocument/documentSymbol\",\"params\":{\"textDocument\":{\"uri\":\"untitled:a.c\"}}}
< {\"error\":{\"code\":-32602,\"message\":\"invalid params\"},\"id\":6,\"jsonrpc\":\"2.0\"}
> {\"jsonrpc\":\"2.0\",\"method\":\"textDocument/didClose\",\"params\":{\"textDocument\":{\"uri\":\"file:///p/%61%20b.c\"}}}
> {\"jsonrpc\":\"2.0\",\"id\":7,\"method\":\"textDocument/documentSymbol\",\"params\":{\"textDocument\":{\"uri\":\"file:///p/a%20b.c\"}}}
< {\"error\":{\"code\":-32602,\"message\":\"invalid params\"},\"id\":7,\"jsonrpc\":\"2.0\"}
> {\"jsonrpc\":\"2.0\",\"method\":\"exit\"}
"
}

/// A session whose words define `M` as `int m;` and then as `int n;`, and a watched change of a header.
pub fn macros() -> &'static str {
    "> {\"jsonrpc\":\"2.0\",\"id\":1,\"method\":\"initialize\",\"params\":{}}
< {\"id\":1,\"jsonrpc\":\"2.0\",\"result\":{\"capabilities\":{\"documentSymbolProvider\":true,\"textDocumentSync\":1},\"serverInfo\":{\"name\":\"clsd\"}}}
> {\"jsonrpc\":\"2.0\",\"method\":\"textDocument/didOpen\",\"params\":{\"textDocument\":{\"uri\":\"file:///a.c\",\"version\":1,\"text\":\"M\\n\"}}}
> {\"jsonrpc\":\"2.0\",\"method\":\"workspace/didChangeWatchedFiles\",\"params\":{\"changes\":[{\"uri\":\"file:///p/k.h\",\"type\":1}]}}
> {\"jsonrpc\":\"2.0\",\"id\":2,\"method\":\"textDocument/documentSymbol\",\"params\":{\"textDocument\":{\"uri\":\"file:///a.c\"}}}
< {\"id\":2,\"jsonrpc\":\"2.0\",\"result\":[{\"kind\":13,\"name\":\"n\",\"range\":{\"end\":{\"character\":1,\"line\":0},\"start\":{\"character\":0,\"line\":0}},\"selectionRange\":{\"end\":{\"character\":1,\"line\":0},\"start\":{\"character\":0,\"line\":0}}}]}
> {\"jsonrpc\":\"2.0\",\"method\":\"exit\"}
"
}
