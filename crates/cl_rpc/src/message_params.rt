ghost use Rattle.std.specs.Prelude.{◌≡◌, IfOk, option_map};
ghost use Rattle.serde_json.specs.View.{view};
ghost use Rattle.cl_rpc.specs.Messages.{as_id, id_in, document_in, has_params_object, document_path, path_at, version_in, opened_text_in, cancelled_in};

use crate::id::Id;
use crate::json::{text_at, whole_at};
use cl_base::{Mem, Path, Text};
use cl_paths::path_of_uri;
use serde_json::Value;
use std::alloc::Global;

/// The id that a value is, where it is one.
pub fn id_of(alloc: Global, value: &Value) -> Mem<Option<Id>>
    ensures { IfOk result (λ id. id ≡ as_id (view value.now)) }
{
    if let Some(text) = value.as_str() {
        let text = Text::new(alloc, text.as_bytes())?;
        return Ok(Some(Id::Text(text)));
    }
    match value.as_i64() {
        Some(number) => Ok(Some(Id::Number(number))),
        None => Ok(None),
    }
}

/// The id that stands in an object, where one can be read.
pub fn id_at(alloc: Global, value: &Value) -> Mem<Option<Id>>
    ensures { IfOk result (λ id. id ≡ id_in (view value.now)) }
{
    match value.get("id") {
        Some(id) => {
            let id = id_of(alloc, id)?;
            Ok(id)
        }
        None => Ok(None),
    }
}

/// Whether the params are an object.
pub fn has_params_object(value: &Value) -> bool
    ensures { result ≡ has_params_object (view value.now) }
{
    match value.get("params") {
        Some(params) => params.is_object(),
        None => false,
    }
}

/// The document that the params name.
fn document_at(value: &Value) -> Option<&Value>
    ensures { option_map (λ v. view v.now) result ≡ document_in (view value.now) }
{
    value
        .get("params")
        .and_then(|params| params.get("textDocument"))
}

/// The path of the document that the params name, where its URI names one.
pub fn document_path(alloc: Global, value: &Value) -> Mem<Option<Path>>
    ensures { IfOk result (λ path. path ≡ document_path (view value.now)) }
{
    match document_at(value) {
        Some(document) => {
            let path = path_at(alloc, document, "uri")?;
            Ok(path)
        }
        None => Ok(None),
    }
}

/// The path that a member names as a `file` URI.
pub fn path_at(alloc: Global, value: &Value, key: &str) -> Mem<Option<Path>>
    ensures { IfOk result (λ path. path ≡ path_at key.now (view value.now)) }
{
    match text_at(value, key) {
        Some(uri) => {
            let path = path_of_uri(alloc, uri)?;
            Ok(path)
        }
        None => Ok(None),
    }
}

/// The document's version.
pub fn version_at(value: &Value) -> Option<i64>
    ensures { result ≡ version_in (view value.now) }
{
    let document = document_at(value)?;
    whole_at(document, "version")
}

/// The document's text.
pub fn opened_text_at(value: &Value) -> Option<&str>
    ensures { option_map (λ s. s.now) result ≡ opened_text_in (view value.now) }
{
    let document = document_at(value)?;
    text_at(document, "text")
}

/// The id that a cancel names.
pub fn cancelled_at(alloc: Global, value: &Value) -> Mem<Option<Id>>
    ensures { IfOk result (λ id. id ≡ cancelled_in (view value.now)) }
{
    match value.get("params") {
        Some(params) => {
            let id = id_at(alloc, params)?;
            Ok(id)
        }
        None => Ok(None),
    }
}
