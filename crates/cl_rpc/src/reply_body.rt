ghost use Rattle.std.specs.Prelude.{◌≡◌, ◌++◌, codes, OnOk, string_bytes};
ghost use Rattle.serde_json.specs.Data.{number, string};
ghost use Rattle.serde_json.specs.Find.{of_integer};
ghost use Rattle.serde_json.specs.Written.{compact_text};
ghost use Rattle.cl_rpc.specs.Replies.{Adds, id_data, capabilities_data, answer_data, error_message, error_data, reply_data};

use crate::id::Id;
use crate::out::{Out, Reply};
use crate::reply_pieces::{push, push_count, push_id, push_string};
use crate::reply_symbols::push_symbols;
use cl_base::{Answer, Mem};
use itoa::Buffer;
use std::alloc::Global;

/// Adds the body of a reply.
pub fn push_body(alloc: Global, out: &mut String, reply: &Reply) -> Mem<()>
    ensures { OnOk result (Adds (string_bytes out.old) (string_bytes out.new) (compact_text (reply_data reply.now))) }
{
    match &reply.out {
        Out::Capabilities => {
            push_start(alloc, out, &reply.id)?;
            push_capabilities(out)?;
            push(out, "}")?;
            Ok(())
        }
        Out::Null => {
            push_start(alloc, out, &reply.id)?;
            push(out, "null")?;
            push(out, "}")?;
            Ok(())
        }
        Out::Answer(answer) => {
            push_start(alloc, out, &reply.id)?;
            push_answer(alloc, out, answer)?;
            push(out, "}")?;
            Ok(())
        }
        Out::Error(code) => push_error(alloc, out, &reply.id, *code),
    }
}

/// Adds what stands before a result.
fn push_start(alloc: Global, out: &mut String, id: &Option<Id>) -> Mem<()>
    ensures { OnOk result (Adds (string_bytes out.old) (string_bytes out.new) (codes "{\"id\":" ++ (compact_text (id_data id.now) ++ codes ",\"jsonrpc\":\"2.0\",\"result\":"))) }
{
    push(out, "{\"id\":")?;
    push_id(alloc, out, id)?;
    push(out, ",\"jsonrpc\":\"2.0\",\"result\":")?;
    Ok(())
}

/// Adds what the server can do (LSP 3.17, InitializeResult).
fn push_capabilities(out: &mut String) -> Mem<()>
    ensures { OnOk result (Adds (string_bytes out.old) (string_bytes out.new) (compact_text capabilities_data)) }
{
    push(
        out,
        "{\"capabilities\":{\"documentSymbolProvider\":true,\"textDocumentSync\":",
    )?;
    push_count(out, 1)?;
    push(out, "},\"serverInfo\":{\"name\":\"clsd\"}}")?;
    Ok(())
}

fn push_answer(alloc: Global, out: &mut String, answer: &Answer) -> Mem<()>
    ensures { OnOk result (Adds (string_bytes out.old) (string_bytes out.new) (compact_text (answer_data answer.now))) }
{
    match answer {
        Answer::Symbols(symbols) => push_symbols(alloc, out, symbols),
    }
}

/// Adds the body of an error's reply.
fn push_error(alloc: Global, out: &mut String, id: &Option<Id>, code: i32) -> Mem<()>
    ensures { OnOk result (Adds (string_bytes out.old) (string_bytes out.new) (compact_text (error_data (id_data id.now) code))) }
{
    push(out, "{\"error\":{\"code\":")?;
    push_code(out, code)?;
    push(out, ",\"message\":")?;
    push_message(alloc, out, code)?;
    push(out, "},\"id\":")?;
    push_id(alloc, out, id)?;
    push(out, ",\"jsonrpc\":\"2.0\"}")?;
    Ok(())
}

/// Adds an error's code.
fn push_code(out: &mut String, code: i32) -> Mem<()>
    ensures { OnOk result (Adds (string_bytes out.old) (string_bytes out.new) (compact_text (number (of_integer code)))) }
{
    let mut digits = Buffer::new();
    push(out, digits.format(code))
}

/// Adds the message of an error's code.
fn push_message(alloc: Global, out: &mut String, code: i32) -> Mem<()>
    ensures { OnOk result (Adds (string_bytes out.old) (string_bytes out.new) (compact_text (string (error_message code)))) }
{
    let message = String::from_str(alloc, error_message(code))?;
    push_string(alloc, out, message)
}

/// The message of an error's code, which is empty for a code that isn't known.
fn error_message(code: i32) -> &'static str
    ensures { result.now ≡ error_message code }
{
    if code == -32700 {
        "parse error"
    } else if code == -32600 {
        "invalid request"
    } else if code == -32601 {
        "method not found"
    } else if code == -32602 {
        "invalid params"
    } else if code == -32002 {
        "not initialized"
    } else if code == -32800 {
        "cancelled"
    } else if code == -32801 {
        "content modified"
    } else if code == -32803 {
        "out of memory"
    } else {
        ""
    }
}
