//! Structures and unions, and where their members begin.

ghost use Rattle.std.specs.Prelude.{◌≡◌, IfOk};
ghost use Rattle.cl_type_cases.specs.Tags.{content_of};

use crate::chains::chain;
use cl_base::{Duplicate, List, Mem, Memory};
use cl_layout::{Layout, Members, offsets, size_align};
use cl_types::{CType, DeclNo, Member, TagWord};
use std::alloc::Global;

/// The structures and unions of a case, by their numbers.
#[derive(Drop)]
pub(crate) struct Tags {
    members: List<List<Member>>,
}

impl Tags {
    /// No structures and no unions.
    pub(crate) fn none(alloc: Global) -> Tags {
        Tags {
            members: List::new(alloc),
        }
    }
}

impl Members for Tags {
    ghost content = { λ tags. content_of tags.members };

    fn members(&self, alloc: Global, tag: DeclNo) -> Mem<Option<List<Member>>> {
        match self.members.get(tag.0 as usize) {
            Some(members) => {
                let copy = copied(alloc, members.as_slice())?;
                Ok(Some(copy))
            }
            None => Ok(None),
        }
    }
}

fn copied(alloc: Global, members: &[Member]) -> Mem<List<Member>>
    ensures { IfOk result (λ list. list ≡ members.now) }
{
    let mut list = List::new(alloc);
    let mut rest = members;
    while let Some((member, more)) = rest.split_first() {
        list.push(copy_of(alloc, member)?)?;
        rest = more;
    }
    Ok(list)
}

fn copy_of(alloc: Global, member: &Member) -> Mem<Member>
    ensures { IfOk result (λ copy. copy ≡ member.now) }
{
    let ty = member.ty.duplicate(alloc)?;
    Ok(Member {
        decl: member.decl,
        ty,
        width: member.width,
    })
}

/// A member: the chain of its type, and behind `:` its width.
fn member_of(alloc: Global, number: u32, text: &str) -> Mem<Member> {
    let (type_text, width_text) = text.split_once(":").unwrap_or((text, ""));
    let ty = chain(alloc, type_text)?.unwrap_or(CType::Error);
    let width = width_text.parse::<u64>().ok();
    Ok(Member {
        decl: DeclNo(number),
        ty,
        width,
    })
}

/// The structures and unions of a line, with `; ` between them: each a word `s` or `u`, and its members.
fn tags_of(alloc: Global, line: &str) -> Mem<Tags> {
    let mut tags = List::new(alloc);
    let mut number: u32 = 1;
    for one in line.split("; ") {
        let mut members = List::new(alloc);
        let (_word, list) = one.split_once(" ").unwrap_or((one, ""));
        for text in list.split(' ') {
            members.push(member_of(alloc, number, text)?)?;
            number = number.saturating_add(1);
        }
        tags.push(members)?;
    }
    Ok(Tags { members: tags })
}

/// Where the members of the last one begin, in bits, its size and its alignment in bytes.
pub(crate) fn layout_of(alloc: Global, line: &str) -> Mem<String> {
    let tags = tags_of(alloc, line)?;
    let last = u32::try_from(tags.members.len().saturating_sub(1)).unwrap_or(0);
    let text = match line.rsplit_once("; ") {
        Some((_, text)) => text,
        None => line,
    };
    let word = if text.starts_with("u") {
        TagWord::Union
    } else {
        TagWord::Struct
    };
    let mut shown = String::new(alloc);
    let found = offsets(alloc, &tags, word, DeclNo(last))?;
    for offset in found.as_slice() {
        match offset {
            Some(bit) => {
                let one = format!(in alloc; "{bit} ")?;
                shown.push_str(one.as_str())?;
            }
            None => shown.push_str("? ")?,
        }
    }
    let t = CType::Tag(DeclNo(last), word, None);
    let end = match size_align(alloc, &tags, &t)? {
        Layout::Known { size, align } => format!(in alloc; "size {size} align {align}")?,
        Layout::Unknown => String::from_str(alloc, "unknown")?,
        Layout::Incomplete => String::from_str(alloc, "incomplete")?,
    };
    shown.push_str(end.as_str())?;
    Ok(shown)
}
