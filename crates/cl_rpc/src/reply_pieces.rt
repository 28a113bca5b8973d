ghost use Rattle.std.specs.Prelude.{◌≡◌, decimal, IfOk, OnOk, string_bytes};
ghost use Rattle.serde_json.specs.Data.{string, number};
ghost use Rattle.serde_json.specs.Find.{of_integer};
ghost use Rattle.serde_json.specs.Written.{compact_text};
ghost use Rattle.cl_rpc.specs.Replies.{Adds, text_data, id_data};

use crate::id::Id;
use cl_base::{Mem, Text};
use cl_lossy::shown;
use itoa::Buffer;
use serde_json::Value;
use std::alloc::Global;

/// Adds a piece as it is.
pub fn push(out: &mut String, piece: &str) -> Mem<()>
    ensures { OnOk result (Adds (string_bytes out.old) (string_bytes out.new) piece.now) }
{
    out.push_str(piece)?;
    Ok(())
}

/// Adds a count in decimal.
pub fn push_count(out: &mut String, count: u32) -> Mem<()>
    ensures { OnOk result (Adds (string_bytes out.old) (string_bytes out.new) (decimal count)) }
{
    let mut digits = Buffer::new();
    push(out, digits.format(count))
}

/// Adds a number in decimal, with its sign.
fn push_number(out: &mut String, whole: i64) -> Mem<()>
    ensures { OnOk result (Adds (string_bytes out.old) (string_bytes out.new) (compact_text (number (of_integer whole)))) }
{
    let mut digits = Buffer::new();
    push(out, digits.format(whole))
}

/// Adds a text as a JSON string.
pub fn push_text(alloc: Global, out: &mut String, text: &Text) -> Mem<()>
    ensures { OnOk result (Adds (string_bytes out.old) (string_bytes out.new) (compact_text (text_data text.now))) }
{
    let text = shown(alloc, text.bytes())?;
    push_string(alloc, out, text)
}

/// Adds a JSON string.
pub fn push_string(alloc: Global, out: &mut String, text: String) -> Mem<()>
    ensures { OnOk result (Adds (string_bytes out.old) (string_bytes out.new) (compact_text (string (string_bytes text)))) }
{
    let text = quoted(alloc, text)?;
    push(out, text.as_str())
}

/// A text as a JSON string, in its quotes.
fn quoted(alloc: Global, text: String) -> Mem<String>
    ensures { IfOk result (λ s. string_bytes s ≡ compact_text (string (string_bytes text))) }
{
    let value = Value::String(text);
    let text = value.to_string(alloc)?;
    Ok(text)
}

/// Adds an id, or `null` for none.
pub fn push_id(alloc: Global, out: &mut String, id: &Option<Id>) -> Mem<()>
    ensures { OnOk result (Adds (string_bytes out.old) (string_bytes out.new) (compact_text (id_data id.now))) }
{
    match id {
        None => push(out, "null"),
        Some(Id::Number(number)) => push_number(out, *number),
        Some(Id::Text(text)) => push_text(alloc, out, text),
    }
}
