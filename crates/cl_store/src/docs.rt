ghost use Rattle.std.specs.Prelude.{◌≡◌, ◌↔◌, [], None, Some, OnOk, OnErr, IfOk, IsSome};
ghost use Rattle.std.specs.Option.{option_copied};
ghost use Rattle.cl_store.specs.Docs.{Puts, doc_at};

use cl_base::{Duplicate, Mem, Path, Text};
use std::alloc::Global;
use std::collections::BTreeMap;
use std::marker::Model;

/// A document: the version that its editor gave it, and its text.
#[derive(Drop)]
pub struct Doc {
    pub version: i64,
    pub text: Text,
}

/// Whether the document that was opened was open already.
#[derive(Clone, Copy, PartialEq, Eq)]
pub enum Opened {
    New,
    Again,
}

/// Whether the document that was to change was open.
#[derive(Clone, Copy, PartialEq, Eq)]
pub enum Changed {
    Done,
    NotOpen,
}

/// Whether the document that was to close was open.
#[derive(Clone, Copy, PartialEq, Eq)]
pub enum Closed {
    Done,
    NotOpen,
}

/// The open documents: a finite map from paths to documents.
#[derive(Drop)]
pub struct Docs {
    entries: BTreeMap<Path, Doc>,
}

impl Model for Docs {
    ghost use Rattle.std.specs.Prelude.{List, ℕ};
    ghost use Rattle.std.specs.List.Sorted.{IsStrictlySortedBy};
    ghost use Rattle.std.specs.Map.{keys_of};
    ghost use Rattle.std.specs.Ordering.{nat_cmp};
    ghost use Rattle.std.specs.Cmp.Lexicographic.{slice_cmp};
    ghost use Rattle.cl_store.specs.declared.docs.Doc.{Doc};

    ghost Value = { List (List ℕ × Doc) };

    ghost view = { λ it. it.entries.entries };

    ghost invariant = { λ it. IsStrictlySortedBy (slice_cmp nat_cmp) (keys_of it.entries.entries) };
}

impl Docs {
    /// No document is open. It takes no memory.
    pub fn new(alloc: Global) -> Docs
        ensures { result ≡ [] }
    {
        Docs {
            entries: BTreeMap::new(alloc),
        }
    }

    /// Opens a document: its text and version stand from now on, whether or not it was open.
    pub fn open(&mut self, path: Path, version: i64, text: Text) -> Mem<Opened>
        ensures ok { OnOk result (Puts self.old self.new path (Some (record { version = version; text = text }))) }
        ensures again { IfOk result (λ opened. (opened ≡ Opened.Again) ↔ IsSome (doc_at self.old path)) }
        ensures err { OnErr result (self.new ≡ self.old) }
    {
        match self.entries.insert(path, Doc { version, text })? {
            Some(_) => Ok(Opened::Again),
            None => Ok(Opened::New),
        }
    }

    /// Gives an open document another version and text. `NotOpen` comes exactly where it isn't open.
    pub fn change(&mut self, alloc: Global, path: &Path, version: i64, text: Text) -> Mem<Changed>
        ensures done { IfOk result (λ changed. changed ≡ Changed.Done → Puts self.old self.new path.now (Some (record { version = version; text = text }))) }
        ensures open { IfOk result (λ changed. (changed ≡ Changed.Done) ↔ IsSome (doc_at self.old path.now)) }
        ensures closed { IfOk result (λ changed. changed ≡ Changed.NotOpen → self.new ≡ self.old) }
        ensures err { OnErr result (self.new ≡ self.old) }
    {
        if !self.entries.contains_key(path) {
            return Ok(Changed::NotOpen);
        }
        let path = path.duplicate(alloc)?;
        self.entries.insert(path, Doc { version, text })?;
        Ok(Changed::Done)
    }

    /// Closes a document. `NotOpen` comes exactly where it isn't open. It takes no memory.
    pub fn close(&mut self, path: &Path) -> Closed
        ensures after { Puts self.old self.new path.now None }
        ensures open { (result ≡ Closed.Done) ↔ IsSome (doc_at self.old path.now) }
    {
        match self.entries.remove(path) {
            Some(_) => Closed::Done,
            None => Closed::NotOpen,
        }
    }

    /// The document of a path. `None` comes exactly where it isn't open. It takes no memory.
    pub fn text_at(&self, path: &Path) -> Option<&Doc>
        ensures { option_copied result ≡ doc_at self.now path.now }
    {
        self.entries.get(path)
    }
}
