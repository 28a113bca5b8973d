//! The layouts of structures and unions, one after the other, those that others are made of first.

ghost use Rattle.std.specs.Prelude.{◌≡◌, ◌≤◌, ◌<◌, ℕ, Bool, List, Option, Some, None, drop, length, if◌then◌else◌, ◌&&◌, ◌==◌, IfOk, OnOk};
ghost use Rattle.std.specs.List.{All};
ghost use Rattle.std.specs.Option.{IfSome};
ghost use Rattle.cl_types.specs.declared.unit.Member.{Member};
ghost use Rattle.std.specs.Ordering.{nat_cmp};
ghost use Rattle.std.specs.BTreeMap.{get};
ghost use Rattle.cl_layout.specs.declared.layout.Layout.{Layout};
ghost use Rattle.cl_layout.specs.Layouts.{AreLayouts, layout_at, beginning, is_last, is_union, layout, member_offsets, needed, offsets};
ghost use Rattle.cl_layout.specs.Tables.{IsSound, Stands, Tells, found, need_of, room_after, same_kind};

use crate::layout::{Layout, over};
use crate::room::{Room, begins, filled, finished, member_over};
use crate::tag_key::{TagKey, needed};
use crate::view::Members;
use cl_base::{List, Mem, Memory};
use cl_types::{CType, DeclNo, Member, TagWord};
use std::alloc::Global;
use std::collections::BTreeMap;

/// A structure or union of which some members are placed: the room that they take, and which member is next.
#[derive(Drop)]
pub struct Frame {
    union: bool,
    tag: u32,
    members: List<Member>,
    next: usize,
    room: Option<Room>,
}

/// The layouts found so far, and those that are waited for.
#[derive(Drop)]
pub struct Work {
    structures: BTreeMap<u32, Layout>,
    unions: BTreeMap<u32, Layout>,
    frames: List<Frame>,
}

impl Work {
    fn new(alloc: Global) -> Work
        ensures tells { (layouts : Bool → ℕ → Layout) → Tells layouts result.structures result.unions }
        ensures stands { (layouts : Bool → ℕ → Layout) → All (Stands layouts) result.frames }
    {
        Work {
            structures: BTreeMap::new(alloc),
            unions: BTreeMap::new(alloc),
            frames: List::new(alloc),
        }
    }

    /// The layout of a structure or union, if it is found.
    fn found(&self, need: TagKey) -> Option<Layout>
        ensures value { result ≡ found need.union self.now.structures self.now.unions need.tag }
        ensures told { (content : ℕ → Option (List Member)) → IsSound content self.now → IfSome result (λ l. (layouts : Bool → ℕ → Layout) → AreLayouts content layouts → l ≡ layouts need.union need.tag) }
    {
        self.kept(need)
    }

    fn kept(&self, need: TagKey) -> Option<Layout>
        ensures { result ≡ found need.union self.now.structures self.now.unions need.tag }
    {
        if need.union {
            self.unions.get(&need.tag).copied()
        } else {
            self.structures.get(&need.tag).copied()
        }
    }

    /// Keeps the layout of a structure or union.
    fn put(&mut self, need: TagKey, layout: Layout) -> Mem<()>
        ensures found { OnOk result ((union : Bool) (tag : ℕ) → found union self.new.structures self.new.unions tag ≡ (if same_kind union need.union && (tag == need.tag) then Some layout else found union self.old.structures self.old.unions tag)) }
        ensures frames { self.new.frames ≡ self.old.frames }
    {
        if need.union {
            self.unions.insert(need.tag, layout)?;
        } else {
            self.structures.insert(need.tag, layout)?;
        }
        Ok(())
    }

    /// Begins a structure or union. An incomplete one is found at once.
    fn enter<M: Members>(&mut self, alloc: Global, members: &M, need: TagKey) -> Mem<()>
        ensures { IsSound (M.content members.now) self.old → OnOk result (IsSound (M.content members.now) self.new) }
    {
        match members.members(alloc, DeclNo(need.tag))? {
            None => self.put(need, Layout::Incomplete),
            Some(members) => self.frames.push(Frame {
                union: need.union,
                tag: need.tag,
                members,
                next: 0,
                room: Some(Room { bits: 0, align: 1 }),
            }),
        }
    }

    /// Places a member whose type is made of what has this layout.
    fn advance(&mut self, frame: Frame, inner: Layout) -> Mem<()>
        requires { frame.next < length frame.members }
        ensures stands { (layouts : Bool → ℕ → Layout) → inner ≡ layout_at layouts (need_of (drop frame.next frame.members)) → Stands layouts frame → All (Stands layouts) self.old.frames → OnOk result (All (Stands layouts) self.new.frames) }
        ensures tables { (self.new.structures ≡ self.old.structures) × (self.new.unions ≡ self.old.unions) }
    {
        let room = room_after(&frame, inner);
        self.frames.push(Frame {
            union: frame.union,
            tag: frame.tag,
            members: frame.members,
            next: frame.next + 1,
            room,
        })
    }

    /// Places the next member, or begins first what its type is made of.
    fn place_next<M: Members>(&mut self, alloc: Global, members: &M, frame: Frame) -> Mem<()>
        requires { frame.next < length frame.members }
        ensures { ((layouts : Bool → ℕ → Layout) → AreLayouts (M.content members.now) layouts → Stands layouts frame) → IsSound (M.content members.now) self.old → OnOk result (IsSound (M.content members.now) self.new) }
    {
        let Some(need) = need_of(&frame) else {
            return self.advance(frame, Layout::Unknown);
        };
        match self.found(need) {
            Some(inner) => self.advance(frame, inner),
            None => {
                self.frames.push(frame)?;
                self.enter(alloc, members, need)
            }
        }
    }

    /// Places one member of the structure or union that was begun last, or ends it where all are placed. Where none is begun,
    /// this one is.
    fn step<M: Members>(&mut self, alloc: Global, members: &M, root: TagKey) -> Mem<()>
        ensures { IsSound (M.content members.now) self.old → OnOk result (IsSound (M.content members.now) self.new) }
    {
        match self.frames.pop() {
            None => self.enter(alloc, members, root),
            Some(frame) => self.work_on(alloc, members, frame),
        }
    }

    fn work_on<M: Members>(&mut self, alloc: Global, members: &M, frame: Frame) -> Mem<()>
        ensures { ((layouts : Bool → ℕ → Layout) → AreLayouts (M.content members.now) layouts → Stands layouts frame) → IsSound (M.content members.now) self.old → OnOk result (IsSound (M.content members.now) self.new) }
    {
        if frame.next < frame.members.len() {
            self.place_next(alloc, members, frame)
        } else {
            self.end(frame)
        }
    }

    /// Keeps the layout of a structure or union whose members are all placed.
    fn end(&mut self, frame: Frame) -> Mem<()>
        requires { length frame.members ≤ frame.next }
        ensures { (content : ℕ → Option (List Member)) → ((layouts : Bool → ℕ → Layout) → AreLayouts content layouts → Stands layouts frame) → IsSound content self.old → OnOk result (IsSound content self.new) }
    {
        let need = TagKey {
            union: frame.union,
            tag: frame.tag,
        };
        self.put(need, finished(frame.room))
    }
}

/// Whether no member follows.
fn is_last(more: &[Member]) -> bool
    ensures { result ≡ is_last more.now }
{
    match more {
        [] => true,
        _ => false,
    }
}

/// The room once the next member is placed, if there is one.
fn room_after(frame: &Frame, inner: Layout) -> Option<Room>
    requires { frame.now.next < length frame.now.members }
    ensures { result ≡ room_after frame.now inner (drop frame.now.next frame.now.members) }
{
    let (_, rest) = frame.members.as_slice().split_at(frame.next);
    match rest {
        [member, more @ ..] => {
            let layout = member_over(inner, is_last(more), &member.ty);
            filled(frame.union, frame.room, layout, member.width)
        }
        [] => frame.room,
    }
}

/// What the next member's type is made of.
fn need_of(frame: &Frame) -> Option<TagKey>
    requires { frame.now.next < length frame.now.members }
    ensures { result ≡ need_of (drop frame.now.next frame.now.members) }
{
    let (_, rest) = frame.members.as_slice().split_at(frame.next);
    match rest {
        [member, ..] => needed(&member.ty),
        [] => None,
    }
}

impl Work {
    /// The layout of a structure or union.
    fn tag_layout<M: Members>(&mut self, alloc: Global, members: &M, root: TagKey) -> Mem<Layout>
        ensures value { (layouts : Bool → ℕ → Layout) → AreLayouts (M.content members.now) layouts → IsSound (M.content members.now) self.old → IfOk result (λ l. l ≡ layouts root.union root.tag) }
        ensures kept { IsSound (M.content members.now) self.old → OnOk result (IsSound (M.content members.now) self.new) }
    {
        for _turn in 0..u64::MAX {
            if let Some(layout) = self.found(root) {
                return Ok(layout);
            }
            self.step(alloc, members, root)?;
        }
        Err(Memory)
    }

    /// The layout of what a type is made of, where it is made of a structure or union.
    fn inner<M: Members>(&mut self, alloc: Global, members: &M, need: Option<TagKey>) -> Mem<Layout>
        ensures value { (layouts : Bool → ℕ → Layout) → AreLayouts (M.content members.now) layouts → IsSound (M.content members.now) self.old → IfOk result (λ l. l ≡ layout_at layouts need) }
        ensures kept { IsSound (M.content members.now) self.old → OnOk result (IsSound (M.content members.now) self.new) }
    {
        match need {
            Some(need) => self.tag_layout(alloc, members, need),
            None => Ok(Layout::Unknown),
        }
    }
}

/// The size and the alignment of a type, in bytes.
pub fn size_align<M: Members>(alloc: Global, members: &M, t: &CType) -> Mem<Layout>
    ensures { (layouts : Bool → ℕ → Layout) → AreLayouts (M.content members.now) layouts → IfOk result (λ l. l ≡ layout layouts t.now) }
{
    let mut work = Work::new(alloc);
    let inner = work.inner(alloc, members, needed(t))?;
    Ok(over(inner, t))
}

/// Where the members of a structure or union begin, in bits from its start, in order; None where that isn't known. An incomplete
/// one has no members.
pub fn offsets<M: Members>(
    alloc: Global,
    members: &M,
    word: TagWord,
    tag: DeclNo,
) -> Mem<List<Option<u128>>>
    ensures { (layouts : Bool → ℕ → Layout) → AreLayouts (M.content members.now) layouts → IfOk result (λ list. list ≡ member_offsets layouts (is_union word) (M.content members.now tag.0)) }
{
    match members.members(alloc, tag)? {
        Some(list) => offsets_in(alloc, members, is_union(word), list.as_slice()),
        None => Ok(List::new(alloc)),
    }
}

fn offsets_in<M: Members>(
    alloc: Global,
    members: &M,
    union: bool,
    list: &[Member],
) -> Mem<List<Option<u128>>>
    ensures { (layouts : Bool → ℕ → Layout) → AreLayouts (M.content members.now) layouts → IfOk result (λ made. made ≡ offsets layouts union (Some beginning) list.now) }
{
    let mut work = Work::new(alloc);
    let mut made = List::new(alloc);
    let mut room = Some(Room { bits: 0, align: 1 });
    let mut rest = list;
    while let Some((member, more)) = rest.split_first() {
        let inner = work.inner(alloc, members, needed(&member.ty))?;
        let layout = member_over(inner, is_last(more), &member.ty);
        made.push(begins(union, room, layout, member.width))?;
        room = filled(union, room, layout, member.width);
        rest = more;
    }
    Ok(made)
}

fn is_union(word: TagWord) -> bool
    ensures { result ≡ is_union word }
{
    match word {
        TagWord::Union => true,
        _ => false,
    }
}
