//! What was made over a base, and the scopes that hold the place.

ghost use Rattle.std.specs.Prelude.{◌≡◌, ◌==◌, ℕ, [], Some, if◌then◌else◌, IfOk, OnOk, OnErr};
ghost use Rattle.std.specs.Ordering.{nat_cmp};
ghost use Rattle.std.specs.BTreeMap.{get};
ghost use Rattle.cl_scope.specs.Sound.{IsSound};
ghost use Rattle.cl_scope.specs.Steps.{unit_of, here_by, bound_by, entered, left, reserved, settled_as, bound, meant, told};

use crate::asking::{entity_before, is_content};
use crate::base::Base;
use crate::changed::{Links, Outside, put_link, put_outside};
use crate::entities::{earlier, later, put_joined};
use crate::history::{Within, local_of};
use crate::made::{Bound, Made, PlacedUse, Settled};
use crate::open::Open;
use cl_base::{Diag, List, Mem, Memory, Name};
use cl_types::{Decl, DeclNo, Entity, Linkage, ScopeKind, Space};
use std::alloc::Global;
use std::collections::BTreeMap;
use std::marker::Model;

/// What is settled of a number stands here from here on.
fn put_latest(latest: &mut BTreeMap<u32, u32>, no: DeclNo, at: u32) -> Mem<()>
    ensures { (other : ℕ) → OnOk result (get nat_cmp latest.new other ≡ (if other == no.0 then Some at else get nat_cmp latest.old other)) }
{
    latest.insert(no.0, at)?;
    Ok(())
}

fn answer_of(before: Option<DeclNo>) -> Bound
    ensures { result ≡ bound_by before }
{
    match before {
        None => Bound::First,
        Some(no) => Bound::Again(no),
    }
}

/// What was made over a base, and the scopes that hold the place. After want of memory in `settle`, each call that asks or
/// changes what was made answers want of memory.
#[derive(Drop)]
pub struct Scopes<'a, B: Base> {
    pub(crate) base: &'a B,
    pub(crate) made: Made,
    pub(crate) levels: List<Within>,
    pub(crate) names: Open,
    pub(crate) outsides: BTreeMap<Name, Outside>,
    pub(crate) links: BTreeMap<Name, Links>,
    pub(crate) entities: BTreeMap<u32, Entity>,
    pub(crate) latest: BTreeMap<u32, u32>,
    pub(crate) torn: bool,
}

impl<'a, B: Base> Model for Scopes<'a, B> {
    ghost use Rattle.std.specs.Prelude.{◌≡◌, false};
    ghost use Rattle.cl_scope.specs.Known.{known};
    ghost use Rattle.cl_scope.specs.Steps.{World};
    ghost use Rattle.cl_scope.specs.Sound.{IsSound};
    ghost use Rattle.cl_scope.specs.code.Tables.{Tells};
    ghost use Rattle.std.specs.Coded.{codes};
    ghost use Rattle.cl_types.specs.contracts.types.CType as types;

    ghost Value = { World };

    ghost coded = { Prim.hlevel (codes, types.the_row.coded) };

    ghost view = { λ it. record { base = B.holds it.base.now; made = it.made; levels = it.levels; trail = it.names } };

    ghost invariant = { λ it. IsSound (B.holds it.base.now) × (it.torn ≡ false → Tells (known (B.holds it.base.now)) it.made.settled it.outsides it.links it.entities it.latest) };
}

impl<'a, B: Base> Scopes<'a, B> {
    /// Nothing is made yet, and the place is at file scope. It takes no memory.
    pub fn new(alloc: Global, base: &'a B) -> Scopes<'a, B>
        requires { IsSound (B.holds base.now) }
        ensures { result ≡ record { base = B.holds base.now; made = record { settled = []; taken = 0; uses = []; facts = [] }; levels = []; trail = [] } }
    {
        Scopes {
            base,
            made: Made {
                settled: List::new(alloc),
                taken: 0,
                uses: List::new(alloc),
                facts: List::new(alloc),
            },
            levels: List::new(alloc),
            names: Open::new(alloc),
            outsides: BTreeMap::new(alloc),
            links: BTreeMap::new(alloc),
            entities: BTreeMap::new(alloc),
            latest: BTreeMap::new(alloc),
            torn: false,
        }
    }

    /// What was made.
    pub fn finish(self) -> Made
        ensures { result ≡ self.entry.made }
    {
        self.made
    }

    /// Takes the next number. Nothing changes after want of memory, which comes at the 2^32nd number too.
    pub fn reserve(&mut self) -> Mem<DeclNo>
        ensures number { IfOk result (λ no. no ≡ record { 0 = (unit_of self.old).count }) }
        ensures ok { OnOk result (self.new ≡ reserved self.old) }
        ensures err { OnErr result (self.new ≡ self.old) }
    {
        if self.torn {
            return Err(Memory);
        }
        let count = u64::from(self.base.count()) + u64::from(self.made.taken);
        if count >= 0xffff_ffff {
            return Err(Memory);
        }
        self.made.taken += 1;
        Ok(DeclNo(count as u32))
    }

    /// It is settled what the declaration of this number is. A number may be settled again, as that of an array whose length
    /// comes from its initializer: the last time counts, and the entity has the declaration once.
    pub fn settle(&mut self, alloc: Global, no: DeclNo, decl: Decl) -> Mem<()>
        ensures { OnOk result (self.new ≡ settled_as self.old no decl) }
    {
        if self.torn {
            return Err(Memory);
        }
        let last = self.outside_before(alloc, &decl)?;
        let first = self.linked_before(alloc, &decl)?;
        let again = self.has_first(alloc, no, decl.first)?;
        let before = entity_before(alloc, self.base, &self.entities, decl.first)?;
        self.torn = true;
        put_outside(alloc, &mut self.outsides, &decl, later(last, no))?;
        put_link(alloc, &mut self.links, &decl, earlier(first, no))?;
        put_joined(alloc, &mut self.entities, before, again, no, &decl)?;
        put_latest(&mut self.latest, no, self.made.settled.len() as u32)?;
        self.made.settled.push(Settled { no, decl })?;
        self.torn = false;
        Ok(())
    }

    /// The scope of a name begins (N1570 6.2.1p7): in the innermost scope it means this declaration, unless it has a later one
    /// there. What a name means at file scope, or in a structure or union, is told by what is settled, so there the scopes stay
    /// as they are. `Again` comes exactly where that scope has the name already. Nothing changes after want of memory.
    pub fn bind(&mut self, alloc: Global, space: Space, name: &Name, no: DeclNo) -> Mem<Bound>
        ensures answer { IfOk result (λ answer. answer ≡ bound_by (here_by (unit_of self.old) self.old.trail space name.now)) }
        ensures ok { OnOk result (self.new ≡ bound self.old space name.now no) }
        ensures err { OnErr result (self.new ≡ self.old) }
    {
        let before = self.here(alloc, space, name)?;
        if let Some(space) = local_of(space) {
            self.names.bind(alloc, space, name, no)?;
        }
        Ok(answer_of(before))
    }

    /// A scope begins, or the content of a structure, union or enumeration, which is no scope for tags and ordinary names
    /// (N1570 6.2.1p4). `owner` is the declaration whose content, parameter list or body it is; without one, what stands in it
    /// belongs to whom what stands round it does. Nothing changes after want of memory.
    pub fn enter(&mut self, kind: ScopeKind, owner: Option<DeclNo>) -> Mem<()>
        ensures ok { OnOk result (self.new ≡ entered self.old kind owner) }
        ensures err { OnErr result (self.new ≡ self.old) }
    {
        let within = self.within(kind, owner);
        self.levels.push(within)?;
        if is_content(kind) {
            return Ok(());
        }
        if self.names.enter().is_err() {
            self.levels.pop();
            return Err(Memory);
        }
        Ok(())
    }

    /// What was entered last is left: the names that were bound in a scope are forgotten, and those that they hid mean again
    /// what they meant. It takes no memory, and does nothing where no more was entered than left.
    pub fn leave(&mut self)
        ensures { self.new ≡ left self.old }
    {
        if let Some(within) = self.levels.pop() {
            if !is_content(within.kind) {
                self.names.leave();
            }
        }
    }

    /// A name is used. Nothing changes after want of memory.
    pub fn means(&mut self, used: PlacedUse) -> Mem<()>
        ensures ok { OnOk result (self.new ≡ meant self.old used) }
        ensures err { OnErr result (self.new ≡ self.old) }
    {
        self.made.uses.push(used)?;
        Ok(())
    }

    /// A diagnostic. Nothing changes after want of memory.
    pub fn tell(&mut self, fact: Diag) -> Mem<()>
        ensures ok { OnOk result (self.new ≡ told self.old fact) }
        ensures err { OnErr result (self.new ≡ self.old) }
    {
        self.made.facts.push(fact)?;
        Ok(())
    }
}
