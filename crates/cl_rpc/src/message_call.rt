ghost use Rattle.std.specs.Prelude.{◌≡◌, IfOk, option_and_then};
ghost use Rattle.serde_json.specs.View.{view};
ghost use Rattle.cl_rpc.specs.Messages.{opened, changed, closed, cancel, symbols, document_path, version_in, opened_text_in, cancelled_in, changes_in, changed_text, watched as watched_call, watched_paths, watched_in, request_call, notified_call, notified as notified_parsed};

use crate::call::{Call, Parsed};
use crate::message_changes::changed_text_at;
use crate::message_method::Method;
use crate::message_params::{
    cancelled_at, document_path, has_params_object, opened_text_at, version_at,
};
use crate::message_watched::watched_paths_at;
use cl_base::{Mem, Text};
use serde_json::Value;
use std::alloc::Global;

/// What a request of this method asks for.
pub fn request_call(alloc: Global, method: Method, value: &Value) -> Mem<Call>
    ensures { IfOk result (λ call. call ≡ request_call method (view value.now)) }
{
    match method {
        Method::Initialize => {
            if has_params_object(value) {
                Ok(Call::Initialize)
            } else {
                Ok(Call::BadParams(true))
            }
        }
        Method::Shutdown => Ok(Call::Shutdown),
        Method::Symbols => {
            let call = symbols_call(alloc, value)?;
            Ok(call)
        }
        Method::Exit
        | Method::DidOpen
        | Method::DidChange
        | Method::DidClose
        | Method::Cancel
        | Method::Watched
        | Method::Other => Ok(Call::Unknown),
    }
}

/// What a notification of this method is.
pub fn notified(alloc: Global, method: Method, value: &Value) -> Mem<Parsed>
    ensures { IfOk result (λ parsed. parsed ≡ notified_parsed (notified_call method (view value.now))) }
{
    let call = match method {
        Method::Exit => Call::Exit,
        Method::DidOpen => open_call(alloc, value)?,
        Method::DidChange => change_call(alloc, value)?,
        Method::DidClose => close_call(alloc, value)?,
        Method::Cancel => cancel_call(alloc, value)?,
        Method::Watched => watched_call(alloc, value)?,
        Method::Initialize | Method::Shutdown | Method::Symbols | Method::Other => {
            return Ok(Parsed::Ignored);
        }
    };
    Ok(Parsed::Notification(call))
}

fn symbols_call(alloc: Global, value: &Value) -> Mem<Call>
    ensures { IfOk result (λ call. call ≡ symbols (document_path (view value.now))) }
{
    let Some(path) = document_path(alloc, value)? else {
        return Ok(Call::BadParams(false));
    };
    Ok(Call::Symbols(path))
}

fn open_call(alloc: Global, value: &Value) -> Mem<Call>
    ensures { IfOk result (λ call. call ≡ opened (document_path (view value.now)) (version_in (view value.now)) (opened_text_in (view value.now))) }
{
    let Some(path) = document_path(alloc, value)? else {
        return Ok(Call::BadParams(false));
    };
    let Some(version) = version_at(value) else {
        return Ok(Call::BadParams(false));
    };
    let Some(text) = opened_text_at(value) else {
        return Ok(Call::BadParams(false));
    };
    let text = Text::new(alloc, text.as_bytes())?;
    Ok(Call::DidOpen(path, version, text))
}

fn change_call(alloc: Global, value: &Value) -> Mem<Call>
    ensures { IfOk result (λ call. call ≡ changed (document_path (view value.now)) (version_in (view value.now)) (option_and_then changed_text (changes_in (view value.now)))) }
{
    let Some(path) = document_path(alloc, value)? else {
        return Ok(Call::BadParams(false));
    };
    let Some(version) = version_at(value) else {
        return Ok(Call::BadParams(false));
    };
    let Some(text) = changed_text_at(alloc, value)? else {
        return Ok(Call::BadParams(false));
    };
    Ok(Call::DidChange(path, version, text))
}

fn close_call(alloc: Global, value: &Value) -> Mem<Call>
    ensures { IfOk result (λ call. call ≡ closed (document_path (view value.now))) }
{
    let Some(path) = document_path(alloc, value)? else {
        return Ok(Call::BadParams(false));
    };
    Ok(Call::DidClose(path))
}

fn cancel_call(alloc: Global, value: &Value) -> Mem<Call>
    ensures { IfOk result (λ call. call ≡ cancel (cancelled_in (view value.now))) }
{
    match cancelled_at(alloc, value)? {
        Some(id) => Ok(Call::Cancel(id)),
        None => Ok(Call::BadParams(false)),
    }
}

fn watched_call(alloc: Global, value: &Value) -> Mem<Call>
    ensures { IfOk result (λ call. call ≡ watched_call (option_and_then watched_paths (watched_in (view value.now)))) }
{
    match watched_paths_at(alloc, value)? {
        Some(paths) => Ok(Call::Watched(paths)),
        None => Ok(Call::BadParams(false)),
    }
}
