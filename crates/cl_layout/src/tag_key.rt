//! Which structure or union a type is made of.

ghost use Rattle.std.specs.Prelude.{◌≡◌};
ghost use Rattle.cl_layout.specs.Layouts.{is_union, needed, tag_needed};

use cl_types::{CType, DeclNo, TagWord};

/// A structure or a union, by the number of its tag.
#[derive(Clone, Copy)]
pub struct TagKey {
    pub union: bool,
    pub tag: u32,
}

fn tag_needed(word: TagWord, number: DeclNo) -> Option<TagKey>
    ensures { result ≡ tag_needed word number.0 }
{
    match word {
        TagWord::Enum => None,
        TagWord::Struct => Some(TagKey {
            union: false,
            tag: number.0,
        }),
        TagWord::Union => Some(TagKey {
            union: true,
            tag: number.0,
        }),
    }
}

/// The structure or union that a type is made of, if it is one, or an array of such.
pub fn needed(t: &CType) -> Option<TagKey>
    ensures { result ≡ needed t.now }
{
    match t {
        CType::Array(within, _) => needed(within.get()),
        CType::Tag(number, word, _) => tag_needed(*word, *number),
        CType::Qualified(_, within) => needed(within.get()),
        CType::Atomic(within) => needed(within.get()),
        _ => None,
    }
}
