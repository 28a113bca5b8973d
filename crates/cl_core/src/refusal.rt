//! Whether a message is refused.

ghost use Rattle.std.specs.Prelude.{◌≡◌};
ghost use Rattle.cl_rpc.specs.Classes.{class_behind};
ghost use Rattle.cl_core.specs.Deciding.{core_refusal, core_refusal_by_id};
ghost use Rattle.cl_history.specs.Refusals.{is_initialize};

use crate::core_state::State;
use cl_rpc::{Class, Id};

/// The code with which a message is refused, if it is.
pub fn refusal_of(core: &State, class: Class<'_>) -> Option<i32>
    ensures { result ≡ core_refusal core.now (class_behind class.entry) }
{
    match class {
        Class::Initialises(id)
        | Class::ShutsDown(id)
        | Class::Queries(id, _, _)
        | Class::Unknown(id)
        | Class::BadParams(id, _) => request_refusal(core, id, class),
        Class::Invalid(_, code) => Some(code),
        _ => None,
    }
}

/// The code with which a request of this id is refused, if it is.
fn request_refusal(core: &State, id: &Id, class: Class<'_>) -> Option<i32>
    ensures { result ≡ core_refusal_by_id core.now id.now (class_behind class.entry) }
{
    let first = is_initialize(class);
    if !core.initialised && !first {
        return Some(-32002);
    }
    if (core.initialised && first) || core.shut_down {
        return Some(-32600);
    }
    if core.pending.waits(id) {
        return Some(-32600);
    }
    match class {
        Class::Unknown(_) => Some(-32601),
        Class::BadParams(_, _) => Some(-32602),
        Class::Queries(_, _, path) => match core.docs.text_at(path) {
            Some(_) => None,
            None => Some(-32602),
        },
        _ => None,
    }
}

/// Whether the method is `initialize`.
fn is_initialize(class: Class<'_>) -> bool
    ensures { result ≡ is_initialize (class_behind class.entry) }
{
    match class {
        Class::Initialises(_) => true,
        Class::BadParams(_, first) => first,
        _ => false,
    }
}
