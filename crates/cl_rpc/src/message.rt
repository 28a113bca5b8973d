ghost use Rattle.std.specs.Prelude.{◌≡◌, codes, IfOk};
ghost use Rattle.serde_json.specs.View.{view};
ghost use Rattle.serde_json.specs.Find.{get, as_str};
ghost use Rattle.cl_rpc.specs.Messages.{absent, good, member_as, invalid_request, is_version_2, shaped, message_at, message_in};

use crate::call::Parsed;
use crate::id::Id;
use crate::json::text_at;
use crate::message_call::{notified, request_call};
use crate::message_method::method_of;
use crate::message_params::{id_at, id_of};
use cl_base::{Mem, Memory};
use serde_json::Value;
use std::alloc::Global;

/// The code of a body that is no JSON.
const PARSE_ERROR: i32 = -32700;

/// The code of JSON that is no message.
const INVALID_REQUEST: i32 = -32600;

/// What a body is (JSON-RPC 2.0; LSP 3.17). Of members of one name in one object the last counts,
/// as the reader of JSON takes them.
pub fn message_of(alloc: Global, body: &[u8]) -> Mem<Parsed>
    ensures { IfOk result (λ parsed. parsed ≡ message_in body.now) }
{
    match Value::from_slice(alloc, body) {
        Ok(value) => {
            let parsed = parsed_of(alloc, &value)?;
            Ok(parsed)
        }
        Err(error) => {
            if error.is_memory() {
                return Err(Memory);
            }
            Ok(Parsed::Refused {
                id: None,
                code: PARSE_ERROR,
            })
        }
    }
}

/// What a JSON value is.
fn parsed_of(alloc: Global, value: &Value) -> Mem<Parsed>
    ensures { IfOk result (λ parsed. parsed ≡ message_at (view value.now)) }
{
    if !is_version_2(value) {
        let id = id_at(alloc, value)?;
        return Ok(refused(id));
    }
    let Some(id) = value.get("id") else {
        let parsed = without_id(alloc, value)?;
        return Ok(parsed);
    };
    let Some(id) = id_of(alloc, id)? else {
        return Ok(refused(None));
    };
    let parsed = with_id(alloc, value, id)?;
    Ok(parsed)
}

/// Whether the value says that it is a message of JSON-RPC 2.0.
fn is_version_2(value: &Value) -> bool
    ensures { result ≡ is_version_2 (view value.now) }
{
    match text_at(value, "jsonrpc") {
        Some(version) => version == "2.0",
        None => false,
    }
}

/// A value that is no message.
fn refused(id: Option<Id>) -> Parsed
    ensures { result ≡ Parsed.Refused id invalid_request }
{
    Parsed::Refused {
        id,
        code: INVALID_REQUEST,
    }
}

/// What a value without an id is.
fn without_id(alloc: Global, value: &Value) -> Mem<Parsed>
    ensures { IfOk result (λ parsed. parsed ≡ shaped (view value.now) absent (member_as as_str (get (codes "method") (view value.now)))) }
{
    let Some(method) = text_at(value, "method") else {
        return Ok(refused(None));
    };
    let parsed = notified(alloc, method_of(method), value)?;
    Ok(parsed)
}

/// What a value with this id is.
fn with_id(alloc: Global, value: &Value, id: Id) -> Mem<Parsed>
    ensures { IfOk result (λ parsed. parsed ≡ shaped (view value.now) (good id) (member_as as_str (get (codes "method") (view value.now)))) }
{
    let Some(method) = value.get("method") else {
        return Ok(Parsed::Ignored);
    };
    let Some(method) = method.as_str() else {
        return Ok(refused(Some(id)));
    };
    let call = request_call(alloc, method_of(method), value)?;
    Ok(Parsed::Request { id, call })
}
