//! A set of names that tells at once of a name that came lately.

ghost use Rattle.std.specs.Prelude.{◌≡◌, ℕ, List, None, true, OnOk, IfOk};
ghost use Rattle.std.specs.BTreeMap.{get};
ghost use Rattle.std.specs.Cmp.Lexicographic.{slice_cmp};
ghost use Rattle.std.specs.Ordering.{nat_cmp};
ghost use Rattle.cl_pp.specs.code.Seeing as s;

use cl_base::{Duplicate, Mem, Name};
use std::alloc::Global;
use std::collections::BTreeMap;

/// How many names can be at hand.
const MOST: usize = 256;

/// Names, and some of them at hand: those that came last, each at the number of its bytes.
#[derive(Drop)]
pub(crate) struct Seen {
    pub(crate) names: BTreeMap<Name, ()>,
    pub(crate) recent: Vec<Option<Name>>,
}

/// The place at hand for these bytes.
fn place_of(bytes: &[u8]) -> usize {
    let mut place: u8 = 0;
    for byte in bytes {
        place = place.wrapping_mul(31).wrapping_add(*byte);
    }
    place as usize
}

/// So many places at which there is no name.
fn no_names(alloc: Global, count: usize) -> Mem<Vec<Option<Name>>>
    ensures { IfOk result (λ places. s.AreEmpty places.items) }
{
    let mut places = Vec::with_capacity(alloc, count)?;
    for _ in 0..count {
        places.push(None)?;
    }
    Ok(places)
}

impl Seen {
    /// No names.
    pub(crate) fn new(alloc: Global) -> Mem<Seen>
        ensures names { IfOk result (λ it. (name : List ℕ) → get (slice_cmp nat_cmp) it.names name ≡ None) }
        ensures recent { IfOk result (λ it. s.AreEmpty it.recent.items) }
    {
        Ok(Seen {
            names: BTreeMap::new(alloc),
            recent: no_names(alloc, MOST)?,
        })
    }

    /// Whether a name stands at a place.
    fn is_at(&self, place: usize, name: &Name) -> bool
        ensures { result ≡ s.is_at self.now.recent.items place name.now }
    {
        match self.recent.get(place) {
            Some(Some(one)) => *one == *name,
            Some(None) | None => false,
        }
    }

    /// Whether a name is at hand. One that isn't may be among the names.
    #[tactic(auto, using(crate::proofs::Seeing::at_hand))]
    pub(crate) fn is_at_hand(&self, name: &Name) -> bool
        ensures { result ≡ true → s.IsAtHand self.now.recent.items name.now }
    {
        self.is_at(place_of(name.bytes()), name)
    }

    /// Puts a name at hand, in place of the one that is there.
    pub(crate) fn put(&mut self, alloc: Global, name: &Name) -> Mem<()>
        ensures names { self.new.names ≡ self.old.names }
        ensures recent { OnOk result (s.IsPut name.now self.old.recent.items self.new.recent.items) }
    {
        let place = place_of(name.bytes());
        if place < self.recent.len() {
            let name = name.duplicate(alloc)?;
            self.recent[place] = Some(name);
        }
        Ok(())
    }
}
