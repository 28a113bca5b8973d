//! What may be asked of what was made over a base.

ghost use Rattle.std.specs.Prelude.{◌≡◌, ◌&&◌, ℕ, List, true, IfOk};
ghost use Rattle.std.specs.Option.{option_map, option_copied};
ghost use Rattle.std.specs.Ordering.{nat_cmp};
ghost use Rattle.std.specs.BTreeMap.{get};
ghost use Rattle.cl_base.specs.Lent.{lent_value};
ghost use Rattle.cl_types.specs.declared.unit.Space.{Space as TheSpace};
ghost use Rattle.cl_types.specs.declared.unit.Linkage.{Linkage as TheLinkage};
ghost use Rattle.cl_scope.specs.Known.{known, is_of};
ghost use Rattle.cl_scope.specs.Names.{declares, links, local_of};
ghost use Rattle.cl_scope.specs.Sound.{IsSound, begins_with};
ghost use Rattle.cl_scope.specs.Steps.{unit_of, outside_by, seen_by, visible_by, here_by, kind_by, scope_by, owner_by, top, is_open, is_content, has_owner, level, or_else};
ghost use Rattle.cl_scope.specs.code.Tables.{decl_at};

use crate::base::Base;
use crate::changed::space_outside;
use crate::entities::copied;
use crate::history::{Within, local_of};
use crate::made::Settled;
use crate::scopes::Scopes;
use cl_base::{Lent, List, Mem, Memory, Name};
use cl_types::{Decl, DeclNo, Entity, Linkage, ScopeKind, Space};
use std::alloc::Global;
use std::collections::BTreeMap;

/// What was settled of a number.
fn settled_in<'s>(
    settled: &'s List<Settled>,
    latest: &BTreeMap<u32, u32>,
    no: DeclNo,
) -> Option<&'s Decl>
    ensures { option_copied result ≡ decl_at settled.now (get nat_cmp latest.now no.0) }
{
    let Some(at) = latest.get(&no.0) else {
        return None;
    };
    match settled.get(*at as usize) {
        Some(settled) => Some(&settled.decl),
        None => None,
    }
}

fn base_outside<B: Base>(alloc: Global, base: &B, space: Space, name: &Name) -> Mem<Option<DeclNo>>
    ensures { IfOk result (λ no. no ≡ outside_by (known (B.holds base.now)) space name.now) }
{
    match space {
        Space::Ordinary => base.ordinary(alloc, name),
        Space::Tags => base.tag(alloc, name),
        Space::Labels => Ok(None),
        Space::MembersOf(tag) => base.member(alloc, tag, name),
    }
}

/// A declaration of a base, if it has it.
fn base_decl<'b, B: Base>(alloc: Global, base: &'b B, no: DeclNo) -> Mem<Option<Lent<'b, Decl>>>
    requires { IsSound (B.holds base.now) }
    ensures { IfOk result (λ decl. option_map lent_value decl ≡ (known (B.holds base.now)).decl no.0) }
{
    if no.0 >= base.count() {
        return Ok(None);
    }
    let decl = base.decl(alloc, no)?;
    Ok(Some(decl))
}

fn begins<B: Base>(alloc: Global, base: &B, no: DeclNo) -> Mem<bool>
    requires { IsSound (B.holds base.now) }
    ensures { IfOk result (λ it. it ≡ begins_with ((known (B.holds base.now)).decl no.0) no.0) }
{
    match base_decl(alloc, base, no)? {
        Some(decl) => Ok(decl.get().first.0 == no.0),
        None => Ok(false),
    }
}

/// An entity of a base, if one begins with this declaration.
fn base_entity<'b, B: Base>(alloc: Global, base: &'b B, no: DeclNo) -> Mem<Option<Lent<'b, Entity>>>
    requires { IsSound (B.holds base.now) }
    ensures { IfOk result (λ entity. option_map lent_value entity ≡ (known (B.holds base.now)).entity no.0) }
{
    if !begins(alloc, base, no)? {
        return Ok(None);
    }
    let entity = base.entity(alloc, no)?;
    Ok(Some(entity))
}

/// A base's entity, where the table has none.
pub fn entity_before<B: Base>(
    alloc: Global,
    base: &B,
    table: &BTreeMap<u32, Entity>,
    first: DeclNo,
) -> Mem<Option<Entity>>
    requires { IsSound (B.holds base.now) }
    ensures { IfOk result (λ entity. or_else (get nat_cmp table.now first.0) entity ≡ or_else (get nat_cmp table.now first.0) ((known (B.holds base.now)).entity first.0)) }
{
    if table.contains_key(&first.0) {
        return Ok(None);
    }
    match base_entity(alloc, base, first)? {
        Some(entity) => {
            let entity = copied(alloc, entity.get())?;
            Ok(Some(entity))
        }
        None => Ok(None),
    }
}

/// Whether what stands in it belongs to the scope round it.
pub fn is_content(kind: ScopeKind) -> bool
    ensures { result ≡ is_content kind }
{
    matches!(kind, ScopeKind::Members)
}

fn is_content_of(within: Within, tag: DeclNo) -> bool
    ensures { result ≡ (is_content within.kind && has_owner within.owner tag) }
{
    match within.owner {
        Some(owner) => is_content(within.kind) && owner.0 == tag.0,
        None => false,
    }
}

fn is_among(levels: &[Within], tag: DeclNo) -> bool
    ensures { result ≡ is_open levels.now tag }
{
    for within in levels {
        if is_content_of(*within, tag) {
            return true;
        }
    }
    false
}

impl<'a, B: Base> Scopes<'a, B> {
    /// What a name means at file scope, or in a structure or union.
    pub(crate) fn outside(&self, alloc: Global, space: Space, name: &Name) -> Mem<Option<DeclNo>>
        ensures { IfOk result (λ no. no ≡ outside_by (unit_of self.now) space name.now) }
    {
        if self.torn {
            return Err(Memory);
        }
        let changed = match self.outsides.get(name) {
            Some(outside) => outside.get(space),
            None => None,
        };
        match changed {
            Some(no) => Ok(Some(no)),
            None => {
                let no = base_outside(alloc, self.base, space, name)?;
                Ok(no)
            }
        }
    }

    fn seen(&self, space: Space, name: &Name) -> Option<DeclNo>
        ensures { result ≡ seen_by self.now.trail (local_of space) name.now }
    {
        match local_of(space) {
            Some(space) => self.names.seen(space, name),
            None => None,
        }
    }

    /// The visible declaration of a name: the last one of the innermost scope that has the name (N1570 6.2.1p4). A member is
    /// visible in its structure or union, wherever the place is (6.2.3).
    pub fn look(&self, alloc: Global, space: Space, name: &Name) -> Mem<Option<DeclNo>>
        ensures { IfOk result (λ no. no ≡ visible_by (unit_of self.now) self.now.trail space name.now) }
    {
        match self.seen(space, name) {
            Some(no) => Ok(Some(no)),
            None => {
                let no = self.outside(alloc, space, name)?;
                Ok(no)
            }
        }
    }

    /// The last declaration of a name in the innermost scope, or in the structure or union of the name space.
    pub fn here(&self, alloc: Global, space: Space, name: &Name) -> Mem<Option<DeclNo>>
        ensures { IfOk result (λ no. no ≡ here_by (unit_of self.now) self.now.trail space name.now) }
    {
        match local_of(space) {
            Some(local) => {
                if self.names.is_file() {
                    let no = self.outside(alloc, space, name)?;
                    return Ok(no);
                }
                let no = self.names.seen_here(local, name);
                Ok(no)
            }
            None => {
                let no = self.outside(alloc, space, name)?;
                Ok(no)
            }
        }
    }

    /// The first declaration of a name with this linkage, in whatever scope (N1570 6.2.2).
    pub fn linked(&self, alloc: Global, name: &Name, linkage: Linkage) -> Mem<Option<DeclNo>>
        ensures { IfOk result (λ no. no ≡ (unit_of self.now).linked name.now linkage) }
    {
        if self.torn {
            return Err(Memory);
        }
        let changed = match self.links.get(name) {
            Some(links) => links.get(linkage),
            None => None,
        };
        match changed {
            Some(no) => Ok(Some(no)),
            None => {
                let no = self.base.linked(alloc, name, linkage)?;
                Ok(no)
            }
        }
    }

    /// A declaration. None exactly where it isn't settled yet what it is.
    pub fn decl(&self, alloc: Global, no: DeclNo) -> Mem<Option<Lent<'_, Decl>>>
        ensures { IfOk result (λ decl. option_map lent_value decl ≡ (unit_of self.now).decl no.0) }
    {
        if self.torn {
            return Err(Memory);
        }
        if let Some(decl) = settled_in(&self.made.settled, &self.latest, no) {
            return Ok(Some(Lent::Shared(decl)));
        }
        let decl = base_decl(alloc, self.base, no)?;
        Ok(decl)
    }

    /// Whether a declaration is settled as one of this entity.
    pub(crate) fn has_first(&self, alloc: Global, no: DeclNo, first: DeclNo) -> Mem<bool>
        ensures { IfOk result (λ it. it ≡ is_of ((unit_of self.now).decl no.0) first) }
    {
        match self.decl(alloc, no)? {
            Some(decl) => Ok(decl.get().first.0 == first.0),
            None => Ok(false),
        }
    }

    /// What a declaration's name means before it, at file scope or in its structure or union.
    pub(crate) fn outside_before(&self, alloc: Global, decl: &Decl) -> Mem<Option<DeclNo>>
        ensures { IfOk result (λ no. (space : TheSpace) (called : List ℕ) → declares decl.now space called ≡ true → no ≡ (unit_of self.now).outside space called) }
    {
        let Some(space) = space_outside(decl) else {
            return Ok(None);
        };
        let Some(name) = &decl.name else {
            return Ok(None);
        };
        let no = self.outside(alloc, space.space(), name)?;
        Ok(no)
    }

    /// The first declaration of a declaration's name with its linkage.
    pub(crate) fn linked_before(&self, alloc: Global, decl: &Decl) -> Mem<Option<DeclNo>>
        ensures { IfOk result (λ no. (called : List ℕ) (linkage : TheLinkage) → links decl.now called linkage ≡ true → no ≡ (unit_of self.now).linked called linkage) }
    {
        let Some(name) = &decl.name else {
            return Ok(None);
        };
        let no = self.linked(alloc, name, decl.linkage)?;
        Ok(no)
    }

    /// The entity that begins with a declaration. None exactly where none does.
    pub fn entity(&self, alloc: Global, no: DeclNo) -> Mem<Option<Lent<'_, Entity>>>
        ensures { IfOk result (λ entity. option_map lent_value entity ≡ (unit_of self.now).entity no.0) }
    {
        if self.torn {
            return Err(Memory);
        }
        if let Some(entity) = self.entities.get(&no.0) {
            return Ok(Some(Lent::Shared(entity)));
        }
        let entity = base_entity(alloc, self.base, no)?;
        Ok(entity)
    }

    /// What the place stands in: a scope, or the content of a structure, union or enumeration.
    pub fn kind(&self) -> ScopeKind
        ensures { result ≡ kind_by (top self.now.levels) }
    {
        match self.levels.as_slice().last() {
            Some(within) => within.kind,
            None => ScopeKind::File,
        }
    }

    /// The kind of the innermost scope.
    pub fn scope(&self) -> ScopeKind
        ensures { result ≡ scope_by (top self.now.levels) }
    {
        match self.levels.as_slice().last() {
            Some(within) => within.scope,
            None => ScopeKind::File,
        }
    }

    /// In whose content, parameter list or body the place stands.
    pub fn owner(&self) -> Option<DeclNo>
        ensures { result ≡ owner_by (top self.now.levels) }
    {
        match self.levels.as_slice().last() {
            Some(within) => within.owner,
            None => None,
        }
    }

    /// Whether the place stands in the content of this tag.
    pub fn is_open(&self, tag: DeclNo) -> bool
        ensures { result ≡ is_open self.now.levels tag }
    {
        is_among(self.levels.as_slice(), tag)
    }

    pub(crate) fn within(&self, kind: ScopeKind, owner: Option<DeclNo>) -> Within
        ensures { result ≡ level self.now.levels kind owner }
    {
        let scope = if is_content(kind) { self.scope() } else { kind };
        let owner = match owner {
            Some(owner) => Some(owner),
            None => self.owner(),
        };
        Within { kind, scope, owner }
    }
}
