ghost use Rattle.std.specs.Prelude.{◌≡◌, ◌-◌, IfOk, codes, length, is_some, option_map, option_and_then, slice_get};
ghost use Rattle.std.specs.List.{list_all};
ghost use Rattle.serde_json.specs.View.{view, items_view};
ghost use Rattle.cl_rpc.specs.Messages.{text_in, changes_in, each_has_text, last_text, changed_text};

use crate::json::text_at;
use cl_base::{Mem, Text};
use serde_json::Value;
use std::alloc::Global;

/// The text that the list of changes leaves, with `Some(None)` where the list is empty. `None`
/// comes where there is no list, and where a change has no text.
pub fn changed_text_at(alloc: Global, value: &Value) -> Mem<Option<Option<Text>>>
    ensures { IfOk result (λ text. text ≡ option_and_then changed_text (changes_in (view value.now))) }
{
    let Some(changes) = changes_at(value) else {
        return Ok(None);
    };
    if !each_has_text(changes) {
        return Ok(None);
    }
    let Some(text) = last_text(changes) else {
        return Ok(Some(None));
    };
    let text = Text::new(alloc, text.as_bytes())?;
    Ok(Some(Some(text)))
}

/// The list of changes.
fn changes_at(value: &Value) -> Option<&[Value]>
    ensures { option_map (λ v. items_view v.now) result ≡ changes_in (view value.now) }
{
    let params = value.get("params")?;
    let changes = params.get("contentChanges")?;
    let changes = changes.as_array()?;
    Some(changes.as_slice())
}

/// Whether each change has a text.
fn each_has_text(changes: &[Value]) -> bool
    ensures { result ≡ each_has_text (items_view changes.now) }
{
    let each = all_have_text(changes);
    each
}

/// The same, by the values themselves.
fn all_have_text(changes: &[Value]) -> bool
    ensures { result ≡ list_all (λ v. is_some (text_in (codes "text") (view v))) changes.now }
{
    changes.iter().all(|change| has_text(change))
}

/// Whether a change has a text.
fn has_text(change: &Value) -> bool
    ensures { result ≡ is_some (text_in (codes "text") (view change.now)) }
{
    text_at(change, "text").is_some()
}

/// The text of the last change.
fn last_text(changes: &[Value]) -> Option<&str>
    ensures { option_map (λ s. s.now) result ≡ last_text (items_view changes.now) }
{
    let last = text_of_last(changes);
    last
}

/// The same, by the values themselves.
fn text_of_last(changes: &[Value]) -> Option<&str>
    ensures { option_map (λ s. s.now) result
        ≡ option_and_then (λ v. text_in (codes "text") (view v)) (slice_get changes.now (length changes.now - 1)) }
{
    let change = changes.last()?;
    text_at(change, "text")
}
