//! Entities, as their declarations are settled.

ghost use Rattle.std.specs.Prelude.{◌≡◌, ◌==◌, ℕ, Some, None, false, if◌then◌else◌, IfOk, OnOk};
ghost use Rattle.std.specs.Ordering.{nat_cmp};
ghost use Rattle.std.specs.BTreeMap.{get};
ghost use Rattle.cl_scope.specs.Known.{earlier, joined, joined_definition, joined_type, later};
ghost use Rattle.cl_scope.specs.Steps.{or_else};

use cl_base::{Duplicate, List, Mem};
use cl_types::{CType, Decl, DeclNo, Entity, compatible, composite};
use std::alloc::Global;
use std::collections::BTreeMap;

/// The later of two declarations.
pub fn later(old: Option<DeclNo>, no: DeclNo) -> DeclNo
    ensures { result ≡ later old no }
{
    match old {
        None => no,
        Some(other) => { if no.0 < other.0 { other } else { no } }
    }
}

/// The earlier of two declarations.
pub fn earlier(old: Option<DeclNo>, no: DeclNo) -> DeclNo
    ensures { result ≡ earlier old no }
{
    match old {
        None => no,
        Some(other) => { if other.0 < no.0 { other } else { no } }
    }
}

fn joined_definition(old: Option<DeclNo>, defines: bool, no: DeclNo) -> Option<DeclNo>
    ensures { result ≡ joined_definition old defines no }
{
    if defines { Some(earlier(old, no)) } else { old }
}

fn joined_type(alloc: Global, old: &CType, more: &CType) -> Mem<CType>
    ensures { IfOk result (λ t. t ≡ joined_type old.now more.now) }
{
    if compatible(old, more) {
        let both = composite(alloc, old, more)?;
        Ok(both)
    } else {
        let same = old.duplicate(alloc)?;
        Ok(same)
    }
}

/// An entity that begins with this declaration.
fn begun(alloc: Global, no: DeclNo, decl: &Decl) -> Mem<Entity>
    ensures { IfOk result (λ entity. entity ≡ joined None false no decl.now) }
{
    let mut all = List::new(alloc);
    all.push(no)?;
    let ty = decl.ty.duplicate(alloc)?;
    Ok(Entity {
        first: decl.first,
        all,
        ty,
        complete: joined_definition(None, decl.defines, no),
    })
}

/// An entity has one more declaration, or one that it has is settled anew. After want of memory it is only dropped.
fn join(alloc: Global, entity: &mut Entity, again: bool, no: DeclNo, decl: &Decl) -> Mem<()>
    ensures { OnOk result (entity.new ≡ joined (Some entity.old) again no decl.now) }
{
    if !again {
        entity.all.push(no)?;
    }
    entity.ty = joined_type(alloc, &entity.ty, &decl.ty)?;
    entity.complete = joined_definition(entity.complete, decl.defines, no);
    Ok(())
}

/// The entity of a declaration has it too, over the entity that the base has.
pub fn put_joined(
    alloc: Global,
    table: &mut BTreeMap<u32, Entity>,
    before: Option<Entity>,
    again: bool,
    no: DeclNo,
    decl: &Decl,
) -> Mem<()>
    ensures { (other : ℕ) → OnOk result (get nat_cmp table.new other ≡ (if other == decl.now.first.0 then Some (joined (or_else (get nat_cmp table.old other) before) again no decl.now) else get nat_cmp table.old other)) }
{
    if let Some(entity) = table.get_mut(&decl.first.0) {
        join(alloc, entity, again, no, decl)?;
        return Ok(());
    }
    let entity = match before {
        Some(entity) => {
            let mut entity = entity;
            join(alloc, &mut entity, again, no, decl)?;
            entity
        }
        None => begun(alloc, no, decl)?,
    };
    table.insert(decl.first.0, entity)?;
    Ok(())
}

/// A copy of an entity.
pub fn copied(alloc: Global, entity: &Entity) -> Mem<Entity>
    ensures { IfOk result (λ copy. copy ≡ entity.now) }
{
    let all = {
        let mut all = List::new(alloc);
        all.extend(entity.all.as_slice())?;
        all
    };
    let ty = entity.ty.duplicate(alloc)?;
    Ok(Entity {
        first: entity.first,
        all,
        ty,
        complete: entity.complete,
    })
}
