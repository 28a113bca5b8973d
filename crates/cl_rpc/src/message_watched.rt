ghost use Rattle.std.specs.Prelude.{◌≡◌, IfOk, option_map, option_and_then};
ghost use Rattle.serde_json.specs.View.{view, items_view};
ghost use Rattle.cl_rpc.specs.Messages.{file_in, is_kind_of_change, kind_in, watched_in, watched_paths};

use crate::message_params::path_at;
use cl_base::{List, Mem, Path};
use serde_json::Value;
use std::alloc::Global;

/// The files that a list of watched changes names, in order. `None` comes where there is no list,
/// and where a change's URI names no path, or its type isn't 1 to 3.
pub fn watched_paths_at(alloc: Global, value: &Value) -> Mem<Option<List<Path>>>
    ensures { IfOk result (λ paths. paths ≡ option_and_then watched_paths (watched_in (view value.now))) }
{
    let Some(changes) = changes_at(value) else {
        return Ok(None);
    };
    let paths = files_of(alloc, changes)?;
    Ok(paths)
}

/// The list of changes.
fn changes_at(value: &Value) -> Option<&[Value]>
    ensures { option_map (λ v. items_view v.now) result ≡ watched_in (view value.now) }
{
    let params = value.get("params")?;
    let changes = params.get("changes")?;
    let changes = changes.as_array()?;
    Some(changes.as_slice())
}

/// The files that the changes name, in order. `None` comes where one names none.
fn files_of(alloc: Global, changes: &[Value]) -> Mem<Option<List<Path>>>
    ensures { IfOk result (λ paths. paths ≡ watched_paths (items_view changes.now)) }
{
    let mut paths = List::new(alloc);
    for change in changes {
        let Some(path) = file_at(alloc, change)? else {
            return Ok(None);
        };
        paths.push(path)?;
    }
    Ok(Some(paths))
}

/// The file that a change names, where it names one and has a known type.
fn file_at(alloc: Global, change: &Value) -> Mem<Option<Path>>
    ensures { IfOk result (λ path. path ≡ file_in (view change.now)) }
{
    if !is_kind_of_change(kind_at(change)) {
        return Ok(None);
    }
    let path = path_at(alloc, change, "uri")?;
    Ok(path)
}

/// The number of a change's kind.
fn kind_at(change: &Value) -> Option<u64>
    ensures { result ≡ kind_in (view change.now) }
{
    change.get("type").and_then(Value::as_u64)
}

/// Whether this is the number of a kind of change: created, changed or deleted.
fn is_kind_of_change(number: Option<u64>) -> bool
    ensures { result ≡ is_kind_of_change number }
{
    match number {
        Some(number) => 0 < number && number < 4,
        None => false,
    }
}
