//! What each name means on a page of nested declarations, by N1570 6.2.1 to 6.2.3.

use crate::declaring::declare;
use cl_base::{EmptyBase, Mem, Name};
use cl_scope::{Bound, Scopes, nothing_is_sound};
use cl_types::{DeclKind, DeclNo, Linkage, ScopeKind, Space};
use std::alloc::Global;
use std::test::Fail;

/// A step over the page, and what is to be seen of it.
#[derive(Clone, Copy)]
enum Row {
    /// A declaration: its kind, name and linkage; what its scope has of the name already; its entity.
    Declares(DeclKind, &'static [u8], Linkage, Option<u32>, u32),
    /// A name, and the declaration that it means.
    Means(Space, &'static [u8], Option<u32>),
    /// A scope or a content begins, whose it is.
    Enters(ScopeKind, Option<u32>),
    /// It ends.
    Leaves,
}

use Row::{Declares, Enters, Leaves, Means};

const ORDINARY: Space = Space::Ordinary;

const TAGS: Space = Space::Tags;

const NONE: Linkage = Linkage::Without;

/// ```c
/// int a; typedef int T; struct S { int a; }; static int e;
/// int f(int a, struct P { int x; } *p) {
///     T T = 1;
///     {
///         struct S *q; struct S; extern int e;
///         { int e; { extern int e; } }
///         enum E { a, b = a };
///     }
///     struct I { int a; int a; } i;
/// }
/// int a; extern int e;
/// ```
const PAGE: [Row; 62] = [
    Declares(DeclKind::Object, b"a", Linkage::External, None, 0),
    Declares(DeclKind::Typedef, b"T", NONE, None, 1),
    Declares(DeclKind::Struct, b"S", NONE, None, 2),
    Enters(ScopeKind::Members, Some(2)),
    Declares(DeclKind::Member, b"a", NONE, None, 3),
    Leaves,
    Declares(DeclKind::Object, b"e", Linkage::Internal, None, 4),
    Declares(DeclKind::Function, b"f", Linkage::External, None, 5),
    Enters(ScopeKind::Block, Some(5)),
    Declares(DeclKind::Param, b"a", NONE, None, 6),
    Declares(DeclKind::Struct, b"P", NONE, None, 7),
    Enters(ScopeKind::Members, Some(7)),
    Declares(DeclKind::Member, b"x", NONE, None, 8),
    Leaves,
    Means(TAGS, b"P", Some(7)),
    Declares(DeclKind::Param, b"p", NONE, None, 9),
    Means(ORDINARY, b"T", Some(1)),
    Declares(DeclKind::Object, b"T", NONE, None, 10),
    Means(ORDINARY, b"T", Some(10)),
    Enters(ScopeKind::Block, None),
    Means(TAGS, b"S", Some(2)),
    Declares(DeclKind::Object, b"q", NONE, None, 11),
    Declares(DeclKind::Struct, b"S", NONE, None, 12),
    Means(TAGS, b"S", Some(12)),
    Declares(DeclKind::Object, b"e", Linkage::Internal, None, 4),
    Enters(ScopeKind::Block, None),
    Declares(DeclKind::Object, b"e", NONE, None, 14),
    Enters(ScopeKind::Block, None),
    Declares(DeclKind::Object, b"e", Linkage::External, None, 15),
    Means(ORDINARY, b"e", Some(15)),
    Leaves,
    Means(ORDINARY, b"e", Some(14)),
    Leaves,
    Means(ORDINARY, b"e", Some(13)),
    Declares(DeclKind::Enum, b"E", NONE, None, 16),
    Enters(ScopeKind::Members, Some(16)),
    Declares(DeclKind::Enumerator, b"a", NONE, None, 17),
    Means(ORDINARY, b"a", Some(17)),
    Declares(DeclKind::Enumerator, b"b", NONE, None, 18),
    Leaves,
    Means(ORDINARY, b"b", Some(18)),
    Leaves,
    Means(ORDINARY, b"a", Some(6)),
    Means(ORDINARY, b"b", None),
    Means(TAGS, b"S", Some(2)),
    Declares(DeclKind::Struct, b"I", NONE, None, 19),
    Enters(ScopeKind::Members, Some(19)),
    Declares(DeclKind::Member, b"a", NONE, None, 20),
    Declares(DeclKind::Member, b"a", NONE, Some(20), 20),
    Leaves,
    Means(ORDINARY, b"a", Some(6)),
    Means(Space::MembersOf(DeclNo(19)), b"a", Some(21)),
    Means(Space::MembersOf(DeclNo(2)), b"a", Some(3)),
    Means(TAGS, b"I", Some(19)),
    Leaves,
    Means(ORDINARY, b"T", Some(1)),
    Means(TAGS, b"I", None),
    Means(TAGS, b"P", None),
    Declares(DeclKind::Object, b"a", Linkage::External, Some(0), 0),
    Means(ORDINARY, b"a", Some(22)),
    Declares(DeclKind::Object, b"e", Linkage::Internal, Some(4), 4),
    Means(ORDINARY, b"x", None),
];

fn number_of(found: Option<DeclNo>) -> Option<u32> {
    match found {
        Some(no) => Some(no.0),
        None => None,
    }
}

fn owner_of(owner: Option<u32>) -> Option<DeclNo> {
    match owner {
        Some(no) => Some(DeclNo(no)),
        None => None,
    }
}

fn before_of(before: Bound) -> Option<u32> {
    match before {
        Bound::First => None,
        Bound::Again(no) => Some(no.0),
    }
}

fn means(
    alloc: Global,
    scopes: &Scopes<'_, EmptyBase>,
    space: Space,
    name: &[u8],
    wanted: Option<u32>,
) -> Mem<bool> {
    let name = Name::new(alloc, name)?;
    let found = scopes.look(alloc, space, &name)?;
    Ok(number_of(found) == wanted)
}

/// Whether a row is as it says.
fn holds(alloc: Global, scopes: &mut Scopes<'_, EmptyBase>, row: Row) -> Mem<bool> {
    match row {
        Declares(kind, name, linkage, before, first) => {
            let (found, entity) = declare(alloc, scopes, kind, name, linkage)?;
            Ok(before_of(found) == before && entity.0 == first)
        }
        Means(space, name, wanted) => {
            let it = means(alloc, scopes, space, name, wanted)?;
            Ok(it)
        }
        Enters(kind, owner) => {
            scopes.enter(kind, owner_of(owner))?;
            Ok(true)
        }
        Leaves => {
            scopes.leave();
            Ok(true)
        }
    }
}

#[test]
fn names_of_a_page(rt: HostRuntime) -> Result<(), Fail> {
    let alloc = rt.alloc();
    let base = EmptyBase;
    nothing_is_sound();
    let mut scopes = Scopes::new(alloc, &base);
    let mut at: u32 = 0;
    for row in &PAGE {
        println!(rt; "row {at}")?;
        assert!(rt; holds(alloc, &mut scopes, *row)?);
        at = at.wrapping_add(1);
    }
    assert!(rt; scopes.finish().taken == 24);
    Ok(())
}
