//! The work that a message begins.

ghost use Rattle.std.specs.Prelude.{◌≡◌, ◌∷◌, [], ℕ, List, IfOk, option_to_list};
ghost use Rattle.cl_store.specs.declared.docs.Docs.{Docs};
ghost use Rattle.cl_store.specs.Docs.{doc_at};
ghost use Rattle.cl_rpc.specs.Classes.{class_behind};
ghost use Rattle.cl_core.specs.Deciding.{core_refusal, started_by, waiting_for};
ghost use Rattle.cl_core.specs.Decisions.{IsStart, IsWorkOf};

use crate::core_state::State;
use crate::decision::Work;
use crate::waiting::Waiting;
use cl_base::{Duplicate, Mem, Path, Query};
use cl_query::Job;
use cl_rpc::{Class, Id};
use std::alloc::Global;

/// What a message of this refusal does to the documents, and the request that starts to wait by it.
pub fn work_of<'a>(
    alloc: Global,
    core: &State,
    class: Class<'a>,
    refusal: Option<i32>,
) -> Mem<Work<'a>>
    requires { refusal ≡ core_refusal core.now (class_behind class) }
    ensures { IfOk result (λ work. IsWorkOf core.now (class_behind class.entry) work) }
{
    if let Class::Queries(id, query, path) = class {
        let work = started(alloc, core, id, query, path, refusal)?;
        return Ok(work);
    }
    if !core.initialised {
        return Ok(Work::Nothing);
    }
    match class {
        Class::Opens(path, version, text) => Ok(Work::Puts(path, version, text)),
        Class::Changes(path, version, text) => match core.docs.text_at(path) {
            Some(_) => Ok(Work::Puts(path, version, text)),
            None => Ok(Work::Nothing),
        },
        Class::Closes(path) => Ok(Work::Closes(path)),
        _ => Ok(Work::Nothing),
    }
}

/// A query that isn't refused starts to wait, and its job is over the document as it is.
fn started<'a>(
    alloc: Global,
    core: &State,
    id: &Id,
    query: Query,
    path: &Path,
    refusal: Option<i32>,
) -> Mem<Work<'a>>
    ensures { IfOk result (λ work. IsStart core.now refusal id.now query path.now work) }
{
    if refusal.is_some() {
        return Ok(Work::Nothing);
    }
    match waiting_for(alloc, core, id, query, path)? {
        Some(waiting) => Ok(Work::Starts(waiting)),
        None => Ok(Work::Nothing),
    }
}

/// The request that starts to wait, and its job over the document as it is.
fn waiting_for(
    alloc: Global,
    core: &State,
    id: &Id,
    query: Query,
    path: &Path,
) -> Mem<Option<Waiting>>
    ensures { IfOk result (λ waiting. option_to_list waiting ≡ waiting_for core.now id.now query path.now (doc_at core.now.docs path.now)) }
{
    let Some(doc) = core.docs.text_at(path) else {
        return Ok(None);
    };
    let id = id.duplicate(alloc)?;
    let path = path.duplicate(alloc)?;
    let text = doc.text.duplicate(alloc)?;
    let config = core.config.duplicate(alloc)?;
    let headers = core.headers.duplicate(alloc)?;
    let job = Job {
        number: core.jobs,
        message: core.messages,
        mark: core.journal.len() as u64 + 1,
        version: doc.version,
        path,
        text,
        config,
        headers,
        kind: query,
    };
    Ok(Some(Waiting { id, job }))
}
