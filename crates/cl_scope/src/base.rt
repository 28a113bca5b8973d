//! What a unit's declarations stand on.

ghost use Rattle.std.specs.Prelude.{◌≡◌, ◌<◌, ℕ, Some, None, IfOk, IsSome};
ghost use Rattle.cl_base.specs.Lent.{lent_value};
ghost use Rattle.cl_types.specs.declared.unit.Space.TheVariants.{Ordinary, Tags, MembersOf};
ghost use Rattle.cl_scope.specs.Known.{known};

use cl_base::{EmptyBase, Lent, Mem, Name};
use cl_types::{Decl, DeclNo, Entity, Linkage};
use std::alloc::Global;

/// The beginning of a unit, which is read as it is asked for.
pub trait Base {
    ghost use Rattle.std.specs.Prelude.{◌≡◌, ◌<◌, ℕ, Some, IfOk, IsSome};
    ghost use Rattle.cl_base.specs.Lent.{lent_value};
    ghost use Rattle.cl_types.specs.declared.unit.Space.TheVariants.{Ordinary, Tags, MembersOf};
    ghost use Rattle.cl_scope.specs.declared.made.Made.{Made};
    ghost use Rattle.cl_scope.specs.Known.{known};

    /// What was made of it.
    ghost holds: { Self → Made };

    /// The last ordinary declaration of a name at file scope (N1570 6.2.3).
    fn ordinary(&self, alloc: Global, name: &Name) -> Mem<Option<DeclNo>>
        ensures { IfOk result (λ no. no ≡ (known (holds self.now)).outside Ordinary name.now) };

    /// The last declaration of a tag at file scope.
    fn tag(&self, alloc: Global, name: &Name) -> Mem<Option<DeclNo>>
        ensures { IfOk result (λ no. no ≡ (known (holds self.now)).outside Tags name.now) };

    /// The last member of a name whose owner is this tag.
    fn member(&self, alloc: Global, tag: DeclNo, name: &Name) -> Mem<Option<DeclNo>>
        ensures { IfOk result (λ no. no ≡ (known (holds self.now)).outside (MembersOf tag) name.now) };

    /// The first declaration of a name with this linkage, in whatever scope (N1570 6.2.2).
    fn linked(&self, alloc: Global, name: &Name, linkage: Linkage) -> Mem<Option<DeclNo>>
        ensures { IfOk result (λ no. no ≡ (known (holds self.now)).linked name.now linkage) };

    /// A declaration.
    fn decl(&self, alloc: Global, no: DeclNo) -> Mem<Lent<'_, Decl>>
        requires { IsSome ((known (holds self.now)).decl no.0) }
        ensures { IfOk result (λ lent. Some (lent_value lent) ≡ (known (holds self.now)).decl no.0) };

    /// The entity that begins with a declaration.
    fn entity(&self, alloc: Global, no: DeclNo) -> Mem<Lent<'_, Entity>>
        requires { IsSome ((known (holds self.now)).entity no.0) }
        ensures { IfOk result (λ lent. Some (lent_value lent) ≡ (known (holds self.now)).entity no.0) };

    /// How many declarations there are.
    fn count(&self) -> u32
        ensures { result ≡ (known (holds self.now)).count };
}

#[tactic(auto, unfolding(crate::specs::Known::known, crate::specs::Known::so_far))]
impl Base for EmptyBase {
    ghost use Rattle.std.specs.Prelude.{[]};

    ghost holds = { λ it. record { settled = []; taken = 0; uses = []; facts = [] } };

    fn ordinary(&self, _alloc: Global, _name: &Name) -> Mem<Option<DeclNo>> {
        Ok(None)
    }

    fn tag(&self, _alloc: Global, _name: &Name) -> Mem<Option<DeclNo>> {
        Ok(None)
    }

    fn member(&self, _alloc: Global, _tag: DeclNo, _name: &Name) -> Mem<Option<DeclNo>> {
        Ok(None)
    }

    fn linked(&self, _alloc: Global, _name: &Name, _linkage: Linkage) -> Mem<Option<DeclNo>> {
        Ok(None)
    }

    fn decl(&self, _alloc: Global, _no: DeclNo) -> Mem<Lent<'_, Decl>> {
        Err(cl_base::Memory)
    }

    fn entity(&self, _alloc: Global, _no: DeclNo) -> Mem<Lent<'_, Entity>> {
        Err(cl_base::Memory)
    }

    fn count(&self) -> u32 {
        0
    }
}
