//! What a message leads to.

ghost use Rattle.std.specs.Prelude.{◌≡◌, ◌&&◌, ◌||◌, Some, None, IfOk, is_some};
ghost use Rattle.cl_rpc.specs.Classes.{class_behind};
ghost use Rattle.cl_history.specs.History.{is_initialising};
ghost use Rattle.cl_history.specs.Accepted.{is_shutdown};
ghost use Rattle.cl_core.specs.Deciding.{ends_by};
ghost use Rattle.cl_core.specs.Decisions.{Decides, IsEnding, end_behind};
ghost use Rattle.cl_core.specs.Steps.{ending_after, first_ending};

use crate::core_state::State;
use crate::decision::Decision;
use crate::headers::headers_after;
use crate::refusal::refusal_of;
use crate::replies::replies_of;
use crate::work::work_of;
use cl_base::Mem;
use cl_pending::Which;
use cl_rpc::Class;
use std::alloc::Global;

/// Decides what a message leads to. The session stays as it is.
pub fn decide<'a>(alloc: Global, core: &State, class: Class<'a>) -> Mem<Decision<'a>>
    ensures { IfOk result (λ decision. Decides core.now (class_behind class.entry) decision) }
{
    let refusal = refusal_of(core, class);
    let ends = ends_of(core, class);
    let replies = replies_of(alloc, core, class, refusal, ends)?;
    let headers = headers_after(alloc, core, class)?;
    let work = work_of(alloc, core, class, refusal)?;
    Ok(Decision {
        replies,
        ends,
        work,
        initialised: refusal.is_none() && initialises(class) || core.initialised,
        shut_down: refusal.is_none() && shuts_down(class) || core.shut_down,
        ending: ending_after(core, class),
        headers,
    })
}

/// The waiting requests that a message ends.
fn ends_of<'a>(core: &State, class: Class<'a>) -> Option<Which<'a>>
    ensures ends { end_behind result ≡ ends_by core.now (class_behind class.entry) }
    ensures told { IsEnding result }
{
    if !core.initialised {
        return None;
    }
    match class {
        Class::Cancels(id) => Some(Which::Id(id)),
        Class::Opens(path, _, _) => Some(Which::Document(path)),
        Class::Changes(path, _, _) => match core.docs.text_at(path) {
            Some(_) => Some(Which::Document(path)),
            None => None,
        },
        _ => None,
    }
}

/// Whether a message is an `initialize`.
fn initialises(class: Class<'_>) -> bool
    ensures { result ≡ is_initialising (class_behind class.entry) }
{
    match class {
        Class::Initialises(_) => true,
        _ => false,
    }
}

/// Whether a message is a `shutdown`.
fn shuts_down(class: Class<'_>) -> bool
    ensures { result ≡ is_shutdown (class_behind class.entry) }
{
    match class {
        Class::ShutsDown(_) => true,
        _ => false,
    }
}

/// The status with which the session is to end after a message: at `exit` 0 after an accepted `shutdown`, and else 1;
/// an end that came earlier stands.
fn ending_after(core: &State, class: Class<'_>) -> Option<u8>
    ensures { result ≡ ending_after core.now (class_behind class.entry) }
{
    match class {
        Class::Exits => Some(first_ending(core.ending, if core.shut_down { 0 } else { 1 })),
        _ => core.ending,
    }
}

/// The status of the end that came first.
pub fn first_ending(earlier: Option<u8>, status: u8) -> u8
    ensures { first_ending earlier status ≡ Some result }
{
    match earlier {
        Some(status) => status,
        None => status,
    }
}
