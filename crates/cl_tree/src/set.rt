//! Sets of names.

ghost use Rattle.std.specs.Prelude.{◌≡◌, List, ℕ, Bool, false, OnOk, OnErr};
ghost use Rattle.cl_tree.specs.Sets.{has, IsAdded, IsTaken};

use cl_base::{Duplicate, Mem, Name};
use std::alloc::Global;
use std::collections::BTreeSet;

/// A set of names. `has` of `specs/Sets` says of a list of bytes whether it is one of them.
#[derive(Drop)]
pub struct NameSet {
    names: BTreeSet<Name>,
}

impl NameSet {
    /// No names. It takes no memory.
    pub fn new(alloc: Global) -> NameSet
        ensures { (name : List ℕ) → has result name ≡ false }
    {
        NameSet {
            names: BTreeSet::new(alloc),
        }
    }

    /// Adds a name. After want of memory the set is as it was.
    pub fn add(&mut self, alloc: Global, name: &Name) -> Mem<()>
        ensures ok { OnOk result (IsAdded self.old self.new name.now) }
        ensures err { OnErr result ((other : List ℕ) → has self.new other ≡ has self.old other) }
    {
        let name = name.duplicate(alloc)?;
        self.names.insert(name)?;
        Ok(())
    }

    /// Takes a name out.
    pub fn remove(&mut self, name: &Name)
        ensures { IsTaken self.old self.new name.now }
    {
        self.names.remove(name);
    }

    /// Whether a name is one of them.
    pub fn has(&self, name: &Name) -> bool
        ensures { result ≡ has self.now name.now }
    {
        self.names.contains(name)
    }
}
