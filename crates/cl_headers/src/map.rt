//! What is known of headers.

ghost use Rattle.std.specs.Prelude.{◌≡◌, ◌≢◌, ◌↔◌, IsTrue, ℕ, List, [], None, Some, OnOk, OnErr, IfOk};
ghost use Rattle.std.specs.Option.{option_copied};
ghost use Rattle.std.specs.Ordering.{nat_cmp};
ghost use Rattle.std.specs.Cmp.Lexicographic.{slice_cmp};
ghost use Rattle.std.specs.BTreeMap.{insert_entry, is_at};
ghost use Rattle.std.specs.Map.{remove_entry};
ghost use Rattle.cl_base.specs.declared.headers.Known.TheVariants.{Unknown};
ghost use Rattle.cl_headers.specs.Headers.{Puts, known_at};
ghost use Rattle.cl_headers.specs.Maps.{IsHeaderMap};

use crate::tree::Tree;
use cl_base::{Duplicate, Known, Mem, Path};
use std::alloc::Global;
use std::marker::Model;
use std::sync::Arc;

/// The headers of which something is known: a finite map from paths. A path that it doesn't have is unknown.
/// Copies share the map: `duplicate` costs one count, however much is known. `get`, `put` and `forget` take time
/// logarithmic in how many are known, whatever copies there are.
#[derive(Drop)]
pub struct HeaderMap {
    tree: Tree,
}

impl Model for HeaderMap {
    ghost use Rattle.std.specs.Prelude.{List, ℕ};
    ghost use Rattle.std.specs.Coded.{coded_list};
    ghost use Rattle.cl_base.specs.declared.headers.Known.{Known};
    ghost use Rattle.cl_headers.specs.Maps.{IsHeaderMap};

    ghost Value = { List (List ℕ × Known) };

    ghost view = { λ it. it.tree };

    ghost invariant = { λ it. IsHeaderMap it.tree };
}

impl HeaderMap {
    /// Nothing is known of any header.
    pub fn new(_alloc: Global) -> Mem<HeaderMap>
        ensures { IfOk result (λ headers. headers ≡ []) }
    {
        Ok(HeaderMap { tree: Tree::new() })
    }

    /// What is known of a path: what was put last. `None` comes exactly where nothing was put since it was forgotten
    /// last, or at all. It takes no memory.
    pub fn get(&self, path: &Path) -> Option<&Known>
        ensures value { option_copied result ≡ known_at self.now path.now }
        ensures kept { IsHeaderMap self.now }
    {
        self.tree.get(path)
    }

    /// Keeps what is known of a path, in place of what was known before. After want of memory the map is as before.
    pub fn put(&mut self, alloc: Global, path: Path, known: Known) -> Mem<()>
        requires { known ≢ Unknown }
        ensures ok { OnOk result (self.new ≡ insert_entry (slice_cmp nat_cmp) self.old path known) }
        ensures puts { OnOk result (Puts self.old self.new path (Some known)) }
        ensures err { OnErr result (self.new ≡ self.old) }
    {
        let entry = Arc::new(alloc, (path, known))?;
        self.tree = self.tree.put(alloc, entry)?;
        Ok(())
    }

    /// Forgets what is known of a path. After want of memory the map is as before.
    pub fn forget(&mut self, alloc: Global, path: &Path) -> Mem<()>
        ensures ok { OnOk result (self.new ≡ remove_entry (is_at (slice_cmp nat_cmp path.now)) self.old) }
        ensures puts { OnOk result (Puts self.old self.new path.now None) }
        ensures err { OnErr result (self.new ≡ self.old) }
    {
        self.tree = self.tree.without(alloc, path)?;
        Ok(())
    }

    /// Whether the same is known of the same headers. It takes no memory, and time n log n in what both maps hold.
    pub fn same(&self, other: &HeaderMap) -> bool
        ensures { IsTrue result ↔ (self.now ≡ other.now) }
    {
        if !self.tree.is_within(&other.tree) {
            return false;
        }
        other.tree.is_within(&self.tree)
    }
}

impl Duplicate for HeaderMap {
    fn duplicate(&self, _alloc: Global) -> Mem<HeaderMap> {
        let tree = self.tree.share()?;
        Ok(HeaderMap { tree })
    }
}
