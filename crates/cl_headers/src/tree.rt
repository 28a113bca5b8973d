//! A search tree whose nodes are shared: a change makes anew only the nodes from the root to its place.

ghost use Rattle.std.specs.Prelude.{◌≡◌, [], ◌∷◌, ◌++◌, ◌↔◌, IsTrue, IfOk, MatchOption, Some};
ghost use Rattle.std.specs.Option.{option_copied};
ghost use Rattle.std.specs.Ordering.{nat_cmp};
ghost use Rattle.std.specs.Cmp.Lexicographic.{slice_cmp};
ghost use Rattle.std.specs.BTreeMap.{insert_entry, is_at};
ghost use Rattle.std.specs.Map.{remove_entry};
ghost use Rattle.cl_headers.specs.Headers.{known_at};
ghost use Rattle.cl_headers.specs.Maps.{InOrder};
ghost use Rattle.cl_headers.specs.code.Within.{IsWithin};

use cl_base::{Known, Mem, Path};
use std::alloc::Global;
use std::cmp::Ordering;
use std::marker::Model;
use std::sync::Arc;

/// A path and what is known of it.
pub type Entry = (Path, Known);

/// Entries in a row, which copies share: a copy costs one count. Where they are in the order of their paths, `get`, `put`
/// and `without` go down one way from the root. The two sides of a node differ in height by one at most, so that a way is
/// as long as the logarithm of the number of entries; no clause says so, and none rests on it.
#[cycle(tree)]
#[derive(Drop)]
pub struct Tree {
    root: Option<Arc<Fork, Global>>,
}

#[cycle(tree)]
#[derive(Drop)]
struct Fork {
    left: Tree,
    entry: Arc<Entry, Global>,
    right: Tree,
    height: u32,
}

impl Model for Tree {
    ghost use Rattle.std.specs.Prelude.{List, ℕ, length};
    ghost use Rattle.std.specs.Coded.{coded_list};
    ghost use Rattle.std.proofs.Common.{arith, length-append};
    ghost use Rattle.cl_base.specs.declared.headers.Known.{Known};

    ghost Value = { List (List ℕ × Known) };

    ghost use Rattle.cl_headers.specs.code.Trees.{entries};

    ghost view = { λ it. entries it.root };

    ghost size = { length };

    ghost size_decreases = { λ it h. Prim.grind (arith, length-append) };
}

impl Tree {
    /// No entry.
    pub fn new() -> Tree
        ensures { result ≡ [] }
    {
        Tree { root: None }
    }

    /// The same entries, shared.
    pub fn share(&self) -> Mem<Tree>
        ensures { IfOk result (λ copy. copy ≡ self.now) }
    {
        match &self.root {
            Some(fork) => {
                let fork = fork.clone()?;
                Ok(Tree { root: Some(fork) })
            }
            None => Ok(Tree::new()),
        }
    }

    /// How many nodes stand on the longest way down.
    fn height(&self) -> u32 {
        match &self.root {
            Some(fork) => fork.height,
            None => 0,
        }
    }

    /// What is known of a path.
    pub fn get(&self, path: &Path) -> Option<&Known>
        requires { InOrder self.now }
        ensures { option_copied result ≡ known_at self.now path.now }
    {
        let Some(fork) = &self.root else {
            return None;
        };
        match path.cmp(&fork.entry.0) {
            Ordering::Less => fork.left.get(path),
            Ordering::Equal => Some(&fork.entry.1),
            Ordering::Greater => fork.right.get(path),
        }
    }

    /// The entries with one more, or another at its path.
    pub fn put(&self, alloc: Global, entry: Arc<Entry, Global>) -> Mem<Tree>
        requires { InOrder self.now }
        ensures { IfOk result (λ tree. tree ≡ insert_entry (slice_cmp nat_cmp) self.now entry.value.0 entry.value.1) }
    {
        let Some(fork) = &self.root else {
            let tree = joined(alloc, Tree::new(), entry, Tree::new())?;
            return Ok(tree);
        };
        match entry.0.cmp(&fork.entry.0) {
            Ordering::Less => {
                let left = fork.left.put(alloc, entry)?;
                let tree = balanced(alloc, left, fork.entry.clone()?, fork.right.share()?)?;
                Ok(tree)
            }
            Ordering::Equal => {
                let tree = joined(alloc, fork.left.share()?, entry, fork.right.share()?)?;
                Ok(tree)
            }
            Ordering::Greater => {
                let right = fork.right.put(alloc, entry)?;
                let tree = balanced(alloc, fork.left.share()?, fork.entry.clone()?, right)?;
                Ok(tree)
            }
        }
    }

    /// The entries without that of a path.
    pub fn without(&self, alloc: Global, path: &Path) -> Mem<Tree>
        requires { InOrder self.now }
        ensures { IfOk result (λ tree. tree ≡ remove_entry (is_at (slice_cmp nat_cmp path.now)) self.now) }
    {
        let Some(fork) = &self.root else {
            return Ok(Tree::new());
        };
        match path.cmp(&fork.entry.0) {
            Ordering::Less => {
                let left = fork.left.without(alloc, path)?;
                let tree = balanced(alloc, left, fork.entry.clone()?, fork.right.share()?)?;
                Ok(tree)
            }
            Ordering::Equal => {
                let tree = both(alloc, &fork.left, &fork.right)?;
                Ok(tree)
            }
            Ordering::Greater => {
                let right = fork.right.without(alloc, path)?;
                let tree = balanced(alloc, fork.left.share()?, fork.entry.clone()?, right)?;
                Ok(tree)
            }
        }
    }

    /// The first entry, and the others.
    fn split_first(&self, alloc: Global) -> Mem<Option<(Arc<Entry, Global>, Tree)>>
        ensures { IfOk result (λ first. MatchOption first (self.now ≡ []) (λ it. self.now ≡ it.0.value ∷ it.1)) }
    {
        let Some(fork) = &self.root else {
            return Ok(None);
        };
        match fork.left.split_first(alloc)? {
            None => {
                let first = fork.entry.clone()?;
                let rest = fork.right.share()?;
                Ok(Some((first, rest)))
            }
            Some((first, left)) => {
                let rest = balanced(alloc, left, fork.entry.clone()?, fork.right.share()?)?;
                Ok(Some((first, rest)))
            }
        }
    }

    /// Whether each entry stands in another tree too.
    pub fn is_within(&self, other: &Tree) -> bool
        requires { InOrder other.now }
        ensures { IsTrue result ↔ IsWithin self.now other.now }
    {
        let Some(fork) = &self.root else {
            return true;
        };
        if !fork.left.is_within(other) {
            return false;
        }
        if !is_known(other, &fork.entry) {
            return false;
        }
        fork.right.is_within(other)
    }
}

/// Whether an entry stands in a tree.
fn is_known(tree: &Tree, entry: &Entry) -> bool
    requires { InOrder tree.now }
    ensures { IsTrue result ↔ (known_at tree.now entry.now.0 ≡ Some entry.now.1) }
{
    match tree.get(&entry.0) {
        Some(known) => *known == entry.1,
        None => false,
    }
}

/// A tree of two trees with an entry between them.
fn joined(alloc: Global, left: Tree, entry: Arc<Entry, Global>, right: Tree) -> Mem<Tree>
    ensures { IfOk result (λ tree. tree ≡ left ++ entry.value ∷ right) }
{
    let height = left.height().max(right.height()).saturating_add(1);
    let fork = Arc::new(
        alloc,
        Fork {
            left,
            entry,
            right,
            height,
        },
    )?;
    Ok(Tree { root: Some(fork) })
}

/// The same, where one side may have become higher or lower by one than it was.
fn balanced(alloc: Global, left: Tree, entry: Arc<Entry, Global>, right: Tree) -> Mem<Tree>
    ensures { IfOk result (λ tree. tree ≡ left ++ entry.value ∷ right) }
{
    if left.height() > right.height().saturating_add(1) {
        let tree = turned_right(alloc, left, entry, right)?;
        return Ok(tree);
    }
    if right.height() > left.height().saturating_add(1) {
        let tree = turned_left(alloc, left, entry, right)?;
        return Ok(tree);
    }
    let tree = joined(alloc, left, entry, right)?;
    Ok(tree)
}

/// The same, where the left side is higher by two.
fn turned_right(alloc: Global, left: Tree, entry: Arc<Entry, Global>, right: Tree) -> Mem<Tree>
    ensures { IfOk result (λ tree. tree ≡ left ++ entry.value ∷ right) }
{
    let Some(top) = &left.root else {
        let tree = joined(alloc, left, entry, right)?;
        return Ok(tree);
    };
    if top.left.height() >= top.right.height() {
        let after = joined(alloc, top.right.share()?, entry, right)?;
        let tree = joined(alloc, top.left.share()?, top.entry.clone()?, after)?;
        return Ok(tree);
    }
    let middle = &top.right;
    let Some(middle) = &middle.root else {
        let tree = joined(alloc, left, entry, right)?;
        return Ok(tree);
    };
    let before = joined(
        alloc,
        top.left.share()?,
        top.entry.clone()?,
        middle.left.share()?,
    )?;
    let after = joined(alloc, middle.right.share()?, entry, right)?;
    let tree = joined(alloc, before, middle.entry.clone()?, after)?;
    Ok(tree)
}

/// The same, where the right side is higher by two.
fn turned_left(alloc: Global, left: Tree, entry: Arc<Entry, Global>, right: Tree) -> Mem<Tree>
    ensures { IfOk result (λ tree. tree ≡ left ++ entry.value ∷ right) }
{
    let Some(top) = &right.root else {
        let tree = joined(alloc, left, entry, right)?;
        return Ok(tree);
    };
    if top.right.height() >= top.left.height() {
        let before = joined(alloc, left, entry, top.left.share()?)?;
        let tree = joined(alloc, before, top.entry.clone()?, top.right.share()?)?;
        return Ok(tree);
    }
    let middle = &top.left;
    let Some(middle) = &middle.root else {
        let tree = joined(alloc, left, entry, right)?;
        return Ok(tree);
    };
    let before = joined(alloc, left, entry, middle.left.share()?)?;
    let after = joined(
        alloc,
        middle.right.share()?,
        top.entry.clone()?,
        top.right.share()?,
    )?;
    let tree = joined(alloc, before, middle.entry.clone()?, after)?;
    Ok(tree)
}

/// The entries of two trees of which one is higher by one at most, those of the first in front.
fn both(alloc: Global, left: &Tree, right: &Tree) -> Mem<Tree>
    ensures { IfOk result (λ tree. tree ≡ left.now ++ right.now) }
{
    match right.split_first(alloc)? {
        None => {
            let tree = left.share()?;
            Ok(tree)
        }
        Some((first, rest)) => {
            let tree = balanced(alloc, left.share()?, first, rest)?;
            Ok(tree)
        }
    }
}
