//! Declarations, made as an item's meaning makes them.

use cl_base::{EmptyBase, Mem, Name, Span};
use cl_scope::{Bound, Scopes};
use cl_types::{CType, Decl, DeclKind, DeclNo, Linkage, ScopeKind, Space};
use std::alloc::Global;

/// The name space of what is declared here.
pub fn space_of(kind: DeclKind, owner: Option<DeclNo>) -> Space {
    match kind {
        DeclKind::Struct => Space::Tags,
        DeclKind::Union => Space::Tags,
        DeclKind::Enum => Space::Tags,
        DeclKind::Label => Space::Labels,
        DeclKind::Member => match owner {
            Some(tag) => Space::MembersOf(tag),
            None => Space::Ordinary,
        },
        _ => Space::Ordinary,
    }
}

fn scope_of(kind: DeclKind, scope: ScopeKind) -> ScopeKind {
    match kind {
        DeclKind::Member => ScopeKind::Members,
        _ => scope,
    }
}

/// The entity of a declaration (N1570 6.2.2p2, 6.7p4): that of the last one in its scope, else that of the first with its
/// linkage, else a new one.
fn first_of(
    alloc: Global,
    scopes: &Scopes<'_, EmptyBase>,
    before: Bound,
    name: &Name,
    linkage: Linkage,
    no: DeclNo,
) -> Mem<DeclNo> {
    let earlier = match before {
        Bound::Again(other) => Some(other),
        Bound::First => scopes.linked(alloc, name, linkage)?,
    };
    let Some(earlier) = earlier else {
        return Ok(no);
    };
    match scopes.decl(alloc, earlier)? {
        Some(decl) => Ok(decl.get().first),
        None => Ok(no),
    }
}

/// The next declaration: what its scope had of the name, and its entity.
pub fn declare(
    alloc: Global,
    scopes: &mut Scopes<'_, EmptyBase>,
    kind: DeclKind,
    name: &[u8],
    linkage: Linkage,
) -> Mem<(Bound, DeclNo)> {
    let name = Name::new(alloc, name)?;
    let no = scopes.reserve()?;
    let owner = scopes.owner();
    let scope = scope_of(kind, scopes.scope());
    let before = scopes.bind(alloc, space_of(kind, owner), &name, no)?;
    let first = first_of(alloc, scopes, before, &name, linkage, no)?;
    let nowhere = Span {
        file: 0,
        from: 0,
        to: 0,
    };
    let decl = Decl {
        kind,
        name: Some(name),
        place: Some(nowhere),
        item: nowhere,
        ty: CType::Int,
        scope,
        owner,
        first,
        linkage,
        storage: 0,
        defines: false,
        value: None,
        bit: None,
    };
    scopes.settle(alloc, no, decl)?;
    Ok((before, first))
}
