//! The names of the scopes that hold a place.

ghost use Rattle.std.specs.Prelude.{◌≡◌, ◌↔◌, ℕ, List, [], ◌∷◌, Some, if◌then◌else◌, IsSome, IsTrue, OnOk, OnErr};
ghost use Rattle.std.specs.Ordering.{nat_cmp};
ghost use Rattle.std.specs.Cmp.Lexicographic.{slice_cmp};
ghost use Rattle.std.specs.BTreeMap.{get};
ghost use Rattle.cl_scope.specs.declared.history.Local.{Local as TheLocal};
ghost use Rattle.cl_scope.specs.code.Open.{number_in, head_of, head_by, newest, beginning, is_before};
ghost use Rattle.cl_scope.specs.declared.history.Entry.TheVariants.{Begin, Named};
ghost use Rattle.cl_scope.specs.Trail.{seen, seen_here, ended, named, binds, one_space, is_last};

use crate::history::{Entry, Local};
use cl_base::{Duplicate, Mem, Memory, Name};
use cl_types::DeclNo;
use std::alloc::Global;
use std::collections::BTreeMap;
use std::marker::Model;

/// An entry, and the one that it hides: that of the same name, or the begin of the scope round it.
#[derive(Drop)]
pub struct Slot {
    pub entry: Entry,
    pub hidden: Option<u32>,
}

/// Where the newest entry of a name stands in each name space.
#[derive(Clone, Copy)]
pub struct Heads {
    pub ordinary: Option<u32>,
    pub tags: Option<u32>,
    pub labels: Option<u32>,
}

/// The names of the scopes that hold a place, the file's aside. A name is found in the time of one look-up.
#[derive(Drop)]
pub struct Open {
    slots: Vec<Slot>,
    begin: Option<u32>,
    heads: BTreeMap<Name, Heads>,
}

impl Model for Open {
    ghost use Rattle.std.specs.Prelude.{List};
    ghost use Rattle.cl_scope.specs.declared.history.Entry.{Entry};
    ghost use Rattle.cl_scope.specs.code.Open.{trail_of, IsIndexed};

    ghost Value = { List Entry };

    ghost view = { λ it. trail_of it.slots.items };

    ghost invariant = { λ it. IsIndexed it.slots.items it.begin it.heads };
}

/// A bound on the number of entries.
const MOST: usize = 0xffff_fffe;

impl Heads {
    fn get(&self, space: Local) -> Option<u32>
        ensures { result ≡ head_by (Some self.now) space }
    {
        match space {
            Local::Ordinary => self.ordinary,
            Local::Tags => self.tags,
            Local::Labels => self.labels,
        }
    }

    fn set(&mut self, space: Local, at: Option<u32>)
        ensures { (other : TheLocal) → head_by (Some self.new) other ≡ (if one_space space other then at else head_by (Some self.old) other) }
    {
        match space {
            Local::Ordinary => self.ordinary = at,
            Local::Tags => self.tags = at,
            Local::Labels => self.labels = at,
        }
    }
}

fn heads_of(heads: &BTreeMap<Name, Heads>, name: &Name) -> Heads
    ensures { (space : TheLocal) → head_by (Some result) space ≡ head_of heads.now space name.now }
{
    match heads.get(name) {
        Some(head) => *head,
        None => Heads {
            ordinary: None,
            tags: None,
            labels: None,
        },
    }
}

/// A name has this newest entry.
fn put_head(heads: &mut BTreeMap<Name, Heads>, space: Local, name: Name, at: Option<u32>) -> Mem<()>
    ensures ok { OnOk result ((other : TheLocal) (called : List ℕ) → head_of heads.new other called ≡ (if binds space name other called then at else head_of heads.old other called)) }
    ensures err { OnErr result (heads.new.entries ≡ heads.old.entries) }
{
    let mut head = heads_of(heads, &name);
    head.set(space, at);
    heads.insert(name, head)?;
    Ok(())
}

/// A name that has an entry has this newest one again. It takes no memory.
fn restore(heads: &mut BTreeMap<Name, Heads>, space: Local, name: &Name, at: Option<u32>)
    requires { IsSome (get (slice_cmp nat_cmp) heads.old name.now) }
    ensures { (other : TheLocal) (called : List ℕ) → head_of heads.new other called ≡ (if binds space name.now other called then at else head_of heads.old other called) }
{
    if let Some(head) = heads.get_mut(name) {
        head.set(space, at);
    }
}

/// The number of the named entry at a place.
fn number_at(slots: &[Slot], at: u32) -> Option<DeclNo>
    ensures { result ≡ number_in slots.now at }
{
    match slots.get(at as usize) {
        Some(slot) => match &slot.entry {
            Entry::Named(_, _, no) => Some(*no),
            Entry::Begin => None,
        },
        None => None,
    }
}

fn is_last(here: Option<DeclNo>, no: DeclNo) -> bool
    ensures { result ≡ is_last here no }
{
    match here {
        None => true,
        Some(other) => !(no.0 < other.0),
    }
}

impl Open {
    /// No scope but the file's. It takes no memory.
    pub fn new(alloc: Global) -> Open
        ensures { result ≡ [] }
    {
        Open {
            slots: Vec::new(alloc),
            begin: None,
            heads: BTreeMap::new(alloc),
        }
    }

    /// Whether there is no scope but the file's.
    pub fn is_file(&self) -> bool
        ensures { IsTrue result ↔ (self.now ≡ []) }
    {
        self.slots.is_empty()
    }

    fn head(&self, space: Local, name: &Name) -> Option<u32>
        ensures { result ≡ newest self.now space name.now }
    {
        match self.heads.get(name) {
            Some(heads) => heads.get(space),
            None => None,
        }
    }

    /// The last declaration of the innermost scope that has the name.
    pub fn seen(&self, space: Local, name: &Name) -> Option<DeclNo>
        ensures { result ≡ seen self.now space name.now }
    {
        match self.head(space, name) {
            None => None,
            Some(at) => number_at(&self.slots, at),
        }
    }

    fn is_outer(&self, at: u32) -> bool
        ensures { result ≡ is_before at (beginning self.now) }
    {
        match self.begin {
            None => false,
            Some(begin) => at < begin,
        }
    }

    /// The last declaration of the name in the innermost scope.
    pub fn seen_here(&self, space: Local, name: &Name) -> Option<DeclNo>
        ensures { result ≡ seen_here self.now space name.now }
    {
        match self.head(space, name) {
            None => None,
            Some(at) => {
                if self.is_outer(at) {
                    None
                } else {
                    number_at(&self.slots, at)
                }
            }
        }
    }

    /// A scope begins.
    pub fn enter(&mut self) -> Mem<()>
        ensures ok { OnOk result (self.new ≡ Begin ∷ self.old) }
        ensures err { OnErr result (self.new ≡ self.old) }
    {
        if self.slots.len() > MOST {
            return Err(Memory);
        }
        let at = self.slots.len() as u32;
        let slot = Slot {
            entry: Entry::Begin,
            hidden: self.begin,
        };
        self.slots.push(slot)?;
        self.begin = Some(at);
        Ok(())
    }

    /// The innermost scope ends. It takes no memory.
    pub fn leave(&mut self)
        ensures { self.new ≡ ended self.old }
    {
        while let Some(slot) = self.slots.pop() {
            let Slot { entry, hidden } = slot;
            match entry {
                Entry::Begin => {
                    self.begin = hidden;
                    return;
                }
                Entry::Named(space, name, _) => restore(&mut self.heads, space, &name, hidden),
            }
        }
    }

    fn is_last(&self, space: Local, name: &Name, no: DeclNo) -> bool
        ensures { result ≡ is_last (seen_here self.now space name.now) no }
    {
        is_last(self.seen_here(space, name), no)
    }

    /// A name gets a meaning in the innermost scope, unless it has that of a later declaration there.
    pub fn bind(&mut self, alloc: Global, space: Local, name: &Name, no: DeclNo) -> Mem<()>
        ensures ok { OnOk result (self.new ≡ named self.old (Some space) name.now no) }
        ensures err { OnErr result (self.new ≡ self.old) }
    {
        if self.is_file() {
            return Ok(());
        }
        if !self.is_last(space, name, no) {
            return Ok(());
        }
        self.push(alloc, space, name, no)?;
        Ok(())
    }

    fn push(&mut self, alloc: Global, space: Local, name: &Name, no: DeclNo) -> Mem<()>
        ensures ok { OnOk result (self.new ≡ Named space name.now no ∷ self.old) }
        ensures err { OnErr result (self.new ≡ self.old) }
    {
        if self.slots.len() > MOST {
            return Err(Memory);
        }
        let hidden = self.head(space, name);
        let at = self.slots.len() as u32;
        let key = name.duplicate(alloc)?;
        let name = name.duplicate(alloc)?;
        let slot = Slot {
            entry: Entry::Named(space, name, no),
            hidden,
        };
        self.slots.push(slot)?;
        match put_head(&mut self.heads, space, key, Some(at)) {
            Ok(()) => Ok(()),
            Err(Memory) => {
                self.slots.pop();
                Err(Memory)
            }
        }
    }
}
