//! Where the requests that wait are found: by their ids, and by their documents.

ghost use Rattle.std.specs.Prelude.{◌≡◌, List, ℕ, ◌∷◌, [], ◌++◌, ◌<◌, None, Some, OnOk, OnErr, IfOk, if◌then◌else◌, length, slice_get};
ghost use Rattle.std.specs.List.{AllByRecursion};
ghost use Rattle.std.specs.Str.{bytes_eq};
ghost use Rattle.cl_rpc.specs.declared.id.Id.{Id};
ghost use Rattle.cl_pending.specs.Keys.{without};
ghost use Rattle.cl_rpc.specs.Classes.{same_id};
ghost use Rattle.cl_pending.specs.Indexes.{message_by, messages_on};

use cl_base::{Duplicate, Mem, Path};
use cl_rpc::Id;
use std::alloc::Global;
use std::collections::{BTreeMap, BTreeSet};

/// The numbers of the messages that made requests, by the requests' ids.
#[derive(Drop)]
pub struct Ids {
    numbers: BTreeMap<i64, u64>,
    texts: BTreeMap<Vec<u8>, u64>,
}

impl Ids {
    /// No id is known. It takes no memory.
    pub fn new(alloc: Global) -> Ids
        ensures { (i : Id) → message_by result i ≡ None }
    {
        Ids {
            numbers: BTreeMap::new(alloc),
            texts: BTreeMap::new(alloc),
        }
    }

    /// The message of an id.
    pub fn get(&self, id: &Id) -> Option<u64>
        ensures { result ≡ message_by self.now id.now }
    {
        match id {
            Id::Number(number) => self.numbers.get(number).copied(),
            Id::Text(text) => self.texts.get(text.bytes()).copied(),
        }
    }

    /// Puts a message under an id, or changes nothing.
    pub fn insert(&mut self, alloc: Global, id: &Id, message: u64) -> Mem<()>
        ensures ok { OnOk result ((i : Id) → message_by self.new i ≡ (if same_id id.now i then Some message else message_by self.old i)) }
        ensures err { OnErr result ((i : Id) → message_by self.new i ≡ message_by self.old i) }
    {
        match id {
            Id::Number(number) => {
                self.numbers.insert(*number, message)?;
            }
            Id::Text(text) => {
                let key = Vec::from_slice(alloc, text.bytes())?;
                self.texts.insert(key, message)?;
            }
        }
        Ok(())
    }

    /// Lets an id go.
    pub fn remove(&mut self, id: &Id)
        ensures { (i : Id) → message_by self.new i ≡ (if same_id id.now i then None else message_by self.old i) }
    {
        match id {
            Id::Number(number) => {
                self.numbers.remove(number);
            }
            Id::Text(text) => {
                self.texts.remove(text.bytes());
            }
        }
    }
}

/// The numbers of the messages that made requests, by the requests' documents, in order.
#[derive(Drop)]
pub struct Documents {
    groups: BTreeMap<Path, BTreeSet<u64>>,
}

impl Documents {
    /// No document has any. It takes no memory.
    pub fn new(alloc: Global) -> Documents
        ensures { (path : List ℕ) → messages_on result path ≡ [] }
    {
        Documents {
            groups: BTreeMap::new(alloc),
        }
    }

    /// How many messages are on a document.
    pub fn count(&self, path: &Path) -> usize
        ensures { result ≡ length (messages_on self.now path.now) }
    {
        match self.groups.get(path) {
            Some(group) => group.len(),
            None => 0,
        }
    }

    /// The first message on a document.
    pub fn first(&self, path: &Path) -> Option<u64>
        ensures { result ≡ slice_get (messages_on self.now path.now) 0 }
    {
        match self.groups.get(path) {
            Some(group) => group.first().copied(),
            None => None,
        }
    }

    /// The messages on a document, in order.
    pub fn all(&self, alloc: Global, path: &Path) -> Mem<Vec<u64>>
        ensures { IfOk result (λ all. all.items ≡ messages_on self.now path.now) }
    {
        let mut all = Vec::new(alloc);
        if let Some(group) = self.groups.get(path) {
            for message in group {
                all.push(*message)?;
            }
        }
        Ok(all)
    }

    /// Puts a message last on a document, or changes nothing.
    pub fn insert(&mut self, alloc: Global, path: &Path, message: u64) -> Mem<()>
        requires above { AllByRecursion (λ n. n < message) (messages_on self.old path.now) }
        ensures ok { OnOk result ((q : List ℕ) → messages_on self.new q ≡ (if bytes_eq path.now q then messages_on self.old q ++ message ∷ [] else messages_on self.old q)) }
        ensures err { OnErr result ((q : List ℕ) → messages_on self.new q ≡ messages_on self.old q) }
    {
        if let Some(group) = self.groups.get_mut(path) {
            group.insert(message)?;
            return Ok(());
        }
        let mut group = BTreeSet::new(alloc);
        group.insert(message)?;
        let path = path.duplicate(alloc)?;
        self.groups.insert(path, group)?;
        Ok(())
    }

    /// Lets a message on a document go.
    pub fn remove(&mut self, path: &Path, message: u64)
        ensures { (q : List ℕ) → messages_on self.new q ≡ (if bytes_eq path.now q then without message (messages_on self.old q) else messages_on self.old q) }
    {
        let Some(group) = self.groups.get_mut(path) else {
            return;
        };
        let count = group.len();
        let was_there = group.remove(&message);
        if was_there && count == 1 {
            self.groups.remove(path);
        }
    }
}
