//! Who tells the members of structures and unions.

use cl_base::{List, Mem};
use cl_types::{DeclNo, Member};
use std::alloc::Global;

/// The members of structures and unions, by the number of the tag.
pub trait Members {
    ghost use Rattle.std.specs.Prelude.{◌≡◌, ℕ, List, Option, IfOk};
    ghost use Rattle.cl_types.specs.declared.unit.Member.{Member};

    /// The members of each, and None of what is incomplete.
    ghost content: { Self → ℕ → Option (List Member) };

    /// The members that count in the layout of a structure or union, in order. None comes exactly where it is incomplete.
    fn members(&self, alloc: Global, tag: DeclNo) -> Mem<Option<List<Member>>>
        ensures { IfOk result (λ given. given ≡ content self.now tag.0) };
}
