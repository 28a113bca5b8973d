//! What is known of headers after a message and after a read.

ghost use Rattle.std.specs.Prelude.{◌≡◌, ◌&&◌, not, ℕ, List, Some, None, IfOk, OnErr, is_some, if◌then◌else◌};
ghost use Rattle.std.specs.List.{list_any};
ghost use Rattle.std.specs.Str.{bytes_eq};
ghost use Rattle.cl_base.specs.declared.headers.Known.TheVariants.{Found};
ghost use Rattle.cl_headers.specs.Headers.{known_at};
ghost use Rattle.cl_rpc.specs.Classes.{class_behind};
ghost use Rattle.cl_history.specs.Headers.{told};
ghost use Rattle.cl_core.specs.Deciding.{texts_of, known_after};

use crate::core_state::State;
use cl_base::{Duplicate, Known, List, Mem, Path, Read, Text};
use cl_headers::HeaderMap;
use cl_rpc::Class;
use cl_store::Docs;
use std::alloc::Global;

/// What is known of headers after a message: the text of a document that it opens or changes, and nothing of a document
/// that it closes and of files that changed, but for open ones.
pub fn headers_after(alloc: Global, core: &State, class: Class<'_>) -> Mem<HeaderMap>
    ensures { IfOk result (λ headers. (path : List ℕ) → known_at headers path
        ≡ known_after core.now.initialised (is_some (texts_of core.now.docs path)) (class_behind class.entry) path (known_at core.now.headers path)) }
{
    let headers = core.headers.duplicate(alloc)?;
    if !core.initialised {
        return Ok(headers);
    }
    match class {
        Class::Opens(path, _, text) => {
            let headers = with_text(alloc, headers, path, text)?;
            Ok(headers)
        }
        Class::Changes(path, _, text) => match core.docs.text_at(path) {
            Some(_) => {
                let headers = with_text(alloc, headers, path, text)?;
                Ok(headers)
            }
            None => Ok(headers),
        },
        Class::Closes(path) => match core.docs.text_at(path) {
            Some(_) => {
                let headers = without(alloc, headers, path)?;
                Ok(headers)
            }
            None => Ok(headers),
        },
        Class::Watched(paths) => {
            let headers = without_closed(alloc, headers, &core.docs, paths)?;
            Ok(headers)
        }
        _ => Ok(headers),
    }
}

/// The headers where a document has this text.
fn with_text(alloc: Global, headers: HeaderMap, path: &Path, text: &Text) -> Mem<HeaderMap>
    ensures { IfOk result (λ after. (q : List ℕ) → known_at after q ≡ (if bytes_eq path.now q then Some (Found text.now) else known_at headers q)) }
{
    let mut headers = headers;
    let path = path.duplicate(alloc)?;
    let text = text.duplicate(alloc)?;
    headers.put(alloc, path, Known::Found(text))?;
    Ok(headers)
}

/// The headers where a read gave this.
pub fn with_read(alloc: Global, headers: HeaderMap, path: &Path, read: Read) -> Mem<HeaderMap>
    ensures { IfOk result (λ after. (q : List ℕ) → known_at after q ≡ (if bytes_eq path.now q then Some (told read) else known_at headers q)) }
{
    let mut headers = headers;
    let path = path.duplicate(alloc)?;
    match read {
        Read::Found(text) => headers.put(alloc, path, Known::Found(text))?,
        Read::Absent => headers.put(alloc, path, Known::Absent)?,
        Read::Failed => headers.put(alloc, path, Known::Failed)?,
    }
    Ok(headers)
}

/// The headers where nothing is known of a path.
fn without(alloc: Global, headers: HeaderMap, path: &Path) -> Mem<HeaderMap>
    ensures { IfOk result (λ after. (q : List ℕ) → known_at after q ≡ (if bytes_eq path.now q then None else known_at headers q)) }
{
    let mut headers = headers;
    headers.forget(alloc, path)?;
    Ok(headers)
}

/// The headers where nothing is known of these paths, but for open documents.
fn without_closed(
    alloc: Global,
    headers: HeaderMap,
    docs: &Docs,
    paths: &List<Path>,
) -> Mem<HeaderMap>
    ensures { IfOk result (λ after. (q : List ℕ) → known_at after q
        ≡ (if list_any (λ path. bytes_eq path q) paths.now && not (is_some (texts_of docs.now q)) then None else known_at headers q)) }
{
    let mut headers = headers;
    for path in paths.as_slice() {
        if docs.text_at(path).is_none() {
            headers.forget(alloc, path)?;
        }
    }
    Ok(headers)
}
