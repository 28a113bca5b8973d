//! Who answers what is known of a header, and keeps what was asked.

ghost use Rattle.std.specs.Prelude.{◌≡◌, ◌++◌, ◌∷◌, [], IfOk, OnOk, OnErr};
ghost use Rattle.cl_headers.specs.Resolving.{known_of};

use crate::map::HeaderMap;
use cl_base::{Duplicate, Known, List, Mem, Path};
use std::alloc::Global;

/// What is known of headers, for one that asks path by path. What it answers never changes, and it keeps the paths that
/// were asked for.
pub trait HeaderView {
    ghost use Rattle.std.specs.Prelude.{◌≡◌, ◌++◌, ◌∷◌, [], List, ℕ, IfOk, OnOk, OnErr};
    ghost use Rattle.cl_base.specs.declared.headers.Known.{Known};

    /// What is known of each path.
    ghost known: { Self → List ℕ → Known };

    /// The paths that were asked for, in order.
    ghost asked: { Self → List (List ℕ) };

    /// What is known of a path. After want of memory it counts as not asked.
    fn ask(&mut self, alloc: Global, path: &Path) -> Mem<Known>
        ensures answer { IfOk result (λ answer. answer ≡ known self.old path.now) }
        ensures asked { OnOk result (asked self.new ≡ asked self.old ++ path.now ∷ []) }
        ensures err { OnErr result (asked self.new ≡ asked self.old) }
        ensures fixed { known self.new ≡ known self.old };
}

/// A view of a header map.
#[derive(Drop)]
pub struct MapView<'a> {
    map: &'a HeaderMap,
    asked: List<Path>,
}

impl<'a> MapView<'a> {
    /// A view of a map, of which nothing was asked.
    pub fn new(alloc: Global, map: &'a HeaderMap) -> MapView<'a>
        ensures known { ⟦<MapView<'a> as HeaderView>⟧.known result ≡ known_of map.now }
        ensures asked { ⟦<MapView<'a> as HeaderView>⟧.asked result ≡ [] }
    {
        MapView {
            map,
            asked: List::new(alloc),
        }
    }

    /// The paths that were asked for, in order.
    pub fn asked(&self) -> &List<Path>
        ensures { result.now ≡ ⟦<MapView<'a> as HeaderView>⟧.asked self.now }
    {
        &self.asked
    }
}

impl<'a> HeaderView for MapView<'a> {
    ghost known = { λ view. known_of view.map.now };

    ghost asked = { λ view. view.asked };

    fn ask(&mut self, alloc: Global, path: &Path) -> Mem<Known> {
        let known = known_in(alloc, self.map, path)?;
        self.asked.push(path.duplicate(alloc)?)?;
        Ok(known)
    }
}

/// What is known of a path: unknown where the map doesn't have it.
fn known_in(alloc: Global, map: &HeaderMap, path: &Path) -> Mem<Known>
    ensures { IfOk result (λ known. known ≡ known_of map.now path.now) }
{
    match map.get(path) {
        Some(known) => {
            let known = known.duplicate(alloc)?;
            Ok(known)
        }
        None => Ok(Known::Unknown),
    }
}
