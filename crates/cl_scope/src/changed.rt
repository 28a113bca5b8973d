//! What has changed of names since the base.

ghost use Rattle.std.specs.Prelude.{◌≡◌, ◌&&◌, ℕ, List, Some, if◌then◌else◌, OnOk};
ghost use Rattle.cl_types.specs.declared.unit.Space.{Space as TheSpace};
ghost use Rattle.cl_types.specs.declared.unit.Linkage.{Linkage as TheLinkage};
ghost use Rattle.cl_scope.specs.Names.{is_name, same_space, same_linkage, space_outside, at_file, declares, links, space_of};
ghost use Rattle.cl_scope.specs.code.Tables.{outside_of, outside_in, link_of, link_in};

use cl_base::{Duplicate, Mem, Name};
use cl_types::{Decl, DeclKind, DeclNo, Linkage, ScopeKind, Space};
use std::alloc::Global;
use std::collections::BTreeMap;

/// A name space in which what a name means is told by the declarations alone: at file scope, or in a structure or union.
#[derive(Clone, Copy)]
pub enum Lasting {
    Ordinary,
    Tags,
    MembersOf(DeclNo),
}

impl Lasting {
    /// The name space.
    pub fn space(self) -> Space
        ensures { result ≡ space_of self }
    {
        match self {
            Lasting::Ordinary => Space::Ordinary,
            Lasting::Tags => Space::Tags,
            Lasting::MembersOf(tag) => Space::MembersOf(tag),
        }
    }
}

/// What a name means at file scope, and in structures and unions by their numbers.
#[derive(Drop)]
pub struct Outside {
    pub ordinary: Option<DeclNo>,
    pub tag: Option<DeclNo>,
    pub members: BTreeMap<u32, DeclNo>,
}

/// The first declarations of a name with linkage.
#[derive(Clone, Copy)]
pub struct Links {
    pub external: Option<DeclNo>,
    pub internal: Option<DeclNo>,
}

/// The name space of what a declaration declares, if it is at file scope or a member (N1570 6.2.3).
pub fn space_outside(decl: &Decl) -> Option<Lasting>
    ensures { result ≡ space_outside decl.now }
{
    match decl.kind {
        DeclKind::Object => at_file(decl.scope, Lasting::Ordinary),
        DeclKind::Function => at_file(decl.scope, Lasting::Ordinary),
        DeclKind::Typedef => at_file(decl.scope, Lasting::Ordinary),
        DeclKind::Enumerator => at_file(decl.scope, Lasting::Ordinary),
        DeclKind::Param => at_file(decl.scope, Lasting::Ordinary),
        DeclKind::Struct => at_file(decl.scope, Lasting::Tags),
        DeclKind::Union => at_file(decl.scope, Lasting::Tags),
        DeclKind::Enum => at_file(decl.scope, Lasting::Tags),
        DeclKind::Member => match decl.owner {
            Some(owner) => Some(Lasting::MembersOf(owner)),
            None => None,
        },
        DeclKind::Label => None,
    }
}

fn at_file(scope: ScopeKind, space: Lasting) -> Option<Lasting>
    ensures { result ≡ at_file scope space }
{
    match scope {
        ScopeKind::File => Some(space),
        _ => None,
    }
}

impl Outside {
    /// What the name means in a name space.
    pub fn get(&self, space: Space) -> Option<DeclNo>
        ensures { result ≡ outside_in (Some self.now) space }
    {
        match space {
            Space::Ordinary => self.ordinary,
            Space::Tags => self.tag,
            Space::Labels => None,
            Space::MembersOf(tag) => self.members.get(&tag.0).copied(),
        }
    }

    /// The name means this from here on. After want of memory the value is only dropped.
    fn set(&mut self, space: Lasting, no: DeclNo) -> Mem<()>
        ensures { (other : TheSpace) → OnOk result (outside_in (Some self.new) other ≡ (if same_space space other then Some no else outside_in (Some self.old) other)) }
    {
        match space {
            Lasting::Ordinary => self.ordinary = Some(no),
            Lasting::Tags => self.tag = Some(no),
            Lasting::MembersOf(tag) => {
                self.members.insert(tag.0, no)?;
            }
        }
        Ok(())
    }
}

/// A name means this from here on.
fn put_name(
    alloc: Global,
    table: &mut BTreeMap<Name, Outside>,
    space: Lasting,
    name: &Name,
    no: DeclNo,
) -> Mem<()>
    ensures { (other : TheSpace) (called : List ℕ) → OnOk result (outside_of table.new other called ≡ (if same_space space other && is_name name.now called then Some no else outside_of table.old other called)) }
{
    if let Some(outside) = table.get_mut(name) {
        outside.set(space, no)?;
        return Ok(());
    }
    let mut outside = Outside {
        ordinary: None,
        tag: None,
        members: BTreeMap::new(alloc),
    };
    outside.set(space, no)?;
    let name = name.duplicate(alloc)?;
    table.insert(name, outside)?;
    Ok(())
}

/// What a declaration at file scope, or of a member, declares means this from here on.
pub fn put_outside(
    alloc: Global,
    table: &mut BTreeMap<Name, Outside>,
    decl: &Decl,
    no: DeclNo,
) -> Mem<()>
    ensures { (other : TheSpace) (called : List ℕ) → OnOk result (outside_of table.new other called ≡ (if declares decl.now other called then Some no else outside_of table.old other called)) }
{
    let Some(space) = space_outside(decl) else {
        return Ok(());
    };
    let Some(name) = &decl.name else {
        return Ok(());
    };
    put_name(alloc, table, space, name, no)?;
    Ok(())
}

impl Links {
    /// The first declaration with this linkage.
    pub fn get(&self, linkage: Linkage) -> Option<DeclNo>
        ensures { result ≡ link_in (Some self.now) linkage }
    {
        match linkage {
            Linkage::External => self.external,
            Linkage::Internal => self.internal,
            Linkage::Without => None,
        }
    }

    /// These with another first declaration with this linkage.
    fn with(self, linkage: Linkage, no: DeclNo) -> Links
        ensures { (other : TheLinkage) → link_in (Some result) other ≡ (if same_linkage linkage other then Some no else link_in (Some self) other) }
    {
        match linkage {
            Linkage::External => Links {
                external: Some(no),
                internal: self.internal,
            },
            Linkage::Internal => Links {
                external: self.external,
                internal: Some(no),
            },
            Linkage::Without => self,
        }
    }
}

fn links_of(table: &BTreeMap<Name, Links>, name: &Name) -> Links
    ensures { (linkage : TheLinkage) → link_in (Some result) linkage ≡ link_of table.now name.now linkage }
{
    match table.get(name) {
        Some(links) => *links,
        None => Links {
            external: None,
            internal: None,
        },
    }
}

/// What a declaration with linkage declares has this first declaration with it from here on.
pub fn put_link(
    alloc: Global,
    table: &mut BTreeMap<Name, Links>,
    decl: &Decl,
    no: DeclNo,
) -> Mem<()>
    ensures { (other : TheLinkage) (called : List ℕ) → OnOk result (link_of table.new called other ≡ (if links decl.now called other then Some no else link_of table.old called other)) }
{
    let Some(name) = &decl.name else {
        return Ok(());
    };
    let links = links_of(table, name).with(decl.linkage, no);
    let name = name.duplicate(alloc)?;
    table.insert(name, links)?;
    Ok(())
}
