//! How many types a type is made of.

ghost use Rattle.std.specs.Prelude.{◌≡◌, map};
ghost use Rattle.cl_types.specs.Normal.{is_small, nodes, params_nodes, all_nodes, left_of};

use crate::types::{CType, Params};

/// The most types that a type is made of, itself and those of its parameters among them.
pub const MOST_NODES: u32 = 1024;

/// Takes the types that a type is made of from a room. None comes exactly where there are more.
#[cycle(nodes)]
pub fn room_after(t: &CType, room: u32) -> Option<u32>
    ensures { result ≡ left_of room (nodes t.now) }
{
    if room == 0 {
        return None;
    }
    match t {
        CType::Pointer(within) => room_after(within.get(), room - 1),
        CType::Array(within, _) => room_after(within.get(), room - 1),
        CType::Function(within, params) => match room_after(within.get(), room - 1) {
            Some(room) => room_after_params(params, room),
            None => None,
        },
        CType::Qualified(_, within) => room_after(within.get(), room - 1),
        CType::Atomic(within) => room_after(within.get(), room - 1),
        _ => Some(room - 1),
    }
}

#[cycle(nodes)]
fn room_after_params(params: &Params, room: u32) -> Option<u32>
    ensures { result ≡ left_of room (params_nodes params.now) }
{
    match params {
        Params::Proto(types, _) => room_after_all(types.get().as_slice(), room),
        Params::NoProto => Some(room),
    }
}

#[cycle(nodes)]
fn room_after_all(types: &[CType], room: u32) -> Option<u32>
    ensures { result ≡ left_of room (all_nodes (map nodes types.now)) }
{
    let mut room = room;
    for t in types {
        match room_after(t, room) {
            Some(left) => room = left,
            None => return None,
        }
    }
    Some(room)
}

/// Whether a type is made of at most 1,024 types.
pub fn is_small(t: &CType) -> bool
    ensures { result ≡ is_small t.now }
{
    match room_after(t, MOST_NODES) {
        Some(_) => true,
        None => false,
    }
}
