//! The requests that wait for their replies. What a message does to them takes time logarithmic in how many there are,
//! for each of those that it ends.

ghost use Rattle.std.specs.Prelude.{◌≡◌, ◌<◌, ◌++◌, ◌∷◌, [], List, filter, map, not, nat_eq, true, false, length, slice_get, option_to_list, OnOk, OnErr, IfOk, IfSome};
ghost use Rattle.std.specs.List.{AllByRecursion, list_any};
ghost use Rattle.std.specs.Option.{option_copied};
ghost use Rattle.cl_pending.specs.Meant.{has_id_by, is_meant_by, is_nil, number_by, with_in_place};
ghost use Rattle.cl_pending.specs.Indexes.{found_in};

use crate::index::{Documents, Ids};
use crate::waits::{Waits, Which};
use cl_base::{Mem, Memory};
use cl_rpc::Id;
use std::alloc::Global;
use std::collections::BTreeMap;
use std::marker::Model;

/// The requests that wait, in the order of their receipt. They stand by the numbers of their messages, which rise.
#[derive(Drop)]
pub struct Pending<W: Waits> {
    waiting: BTreeMap<u64, W>,
    ids: Ids,
    documents: Documents,
}

impl<W: Waits> Model for Pending<W> {
    ghost use Rattle.std.specs.Prelude.{List};
    ghost use Rattle.std.specs.BTreeMap.{values};
    ghost use Rattle.cl_pending.specs.Indexes.{IsIndexed};

    ghost Value = { List W };

    ghost view = { λ it. values it.waiting };

    ghost invariant = { λ it. IsIndexed W.key it.waiting it.ids it.documents };
}

impl<W: Waits> Pending<W> {
    /// None waits. It takes no memory.
    pub fn new(alloc: Global) -> Pending<W>
        ensures { result ≡ [] }
    {
        Pending {
            waiting: BTreeMap::new(alloc),
            ids: Ids::new(alloc),
            documents: Documents::new(alloc),
        }
    }

    /// Whether none waits.
    pub fn is_empty(&self) -> bool
        ensures { result ≡ is_nil self.now }
    {
        self.waiting.is_empty()
    }

    /// Whether a request of this id waits.
    pub fn waits(&self, id: &Id) -> bool
        ensures { result ≡ list_any (has_id_by W.key id.now) self.now }
    {
        self.ids.get(id).is_some()
    }

    /// The request that this message made.
    pub fn at(&self, message: u64) -> Option<&W>
        ensures { option_to_list (option_copied result) ≡ filter (λ waiting. nat_eq (W.key waiting).message message) self.now }
    {
        self.waiting.get(&message)
    }

    /// How many are meant.
    fn count(&self, which: &Which<'_>) -> usize
        ensures { result ≡ length (filter (is_meant_by W.key which.now) self.now) }
    {
        match which {
            Which::Id(id) => usize::from(self.ids.get(id).is_some()),
            Which::Document(path) => self.documents.count(path),
            Which::Message(message) => usize::from(self.at(*message).is_some()),
        }
    }

    /// Whether all that wait are meant.
    pub fn all_meant(&self, which: &Which<'_>) -> bool
        ensures { result ≡ is_nil (filter (λ waiting. not (is_meant_by W.key which.now waiting)) self.now) }
    {
        self.waiting.len() == self.count(which)
    }

    /// The number of the first that is meant. None that isn't meant has that number.
    fn first(&self, which: &Which<'_>) -> Option<u64>
        ensures first { result ≡ slice_get (map (number_by W.key) (filter (is_meant_by W.key which.now) self.now)) 0 }
        ensures alone { IfSome result (λ message. AllByRecursion (λ (waiting : W). nat_eq (W.key waiting).message message ≡ true → is_meant_by W.key which.now waiting ≡ true) self.now) }
    {
        match which {
            Which::Id(id) => self.ids.get(id),
            Which::Document(path) => self.documents.first(path),
            Which::Message(message) => self.number(*message),
        }
    }

    /// The number, if a request of this number waits.
    fn number(&self, message: u64) -> Option<u64>
        ensures { option_to_list result ≡ map (number_by W.key) (filter (λ waiting. nat_eq (W.key waiting).message message) self.now) }
    {
        match self.at(message) {
            Some(waiting) => Some(waiting.message()),
            None => None,
        }
    }

    /// The numbers of those that are meant, in order.
    fn numbers(&self, alloc: Global, which: &Which<'_>) -> Mem<Vec<u64>>
        ensures { IfOk result (λ numbers. numbers.items ≡ map (number_by W.key) (filter (is_meant_by W.key which.now) self.now)) }
    {
        match which {
            Which::Id(id) => one(alloc, self.ids.get(id)),
            Which::Document(path) => {
                let numbers = self.documents.all(alloc, path)?;
                Ok(numbers)
            }
            Which::Message(message) => one(alloc, self.number(*message)),
        }
    }

    /// Those that are meant, in order.
    pub fn meant(&self, alloc: Global, which: &Which<'_>) -> Mem<Vec<&W>>
        ensures { IfOk result (λ found. map (λ waiting. waiting.now) found.items ≡ filter (is_meant_by W.key which.now) self.now) }
    {
        let numbers = self.numbers(alloc, which)?;
        let found = gather(alloc, &self.waiting, numbers.as_slice())?;
        Ok(found)
    }

    /// Adds a request whose id is free and whose message came after all that wait, or changes nothing.
    pub fn push(&mut self, alloc: Global, waiting: W) -> Mem<()>
        requires free { list_any (has_id_by W.key (W.key waiting).id) self.old ≡ false }
        requires above { AllByRecursion (λ (other : W). (W.key other).message < (W.key waiting).message) self.old }
        ensures ok { OnOk result (self.new ≡ self.old ++ waiting ∷ []) }
        ensures err { OnErr result (self.new ≡ self.old) }
    {
        let message = waiting.message();
        self.ids.insert(alloc, waiting.id(), message)?;
        if self
            .documents
            .insert(alloc, waiting.path(), message)
            .is_err()
        {
            self.ids.remove(waiting.id());
            return Err(Memory);
        }
        match self.waiting.insert(message, waiting) {
            Ok(_) => Ok(()),
            Err(failed) => {
                let (_, waiting) = failed.value;
                self.ids.remove(waiting.id());
                self.documents.remove(waiting.path(), message);
                drop(waiting);
                Err(Memory)
            }
        }
    }

    /// Puts a request in place of the one of its message, which has the same key, or changes nothing. Where none of
    /// that message waits, nothing changes.
    pub fn replace(&mut self, waiting: W) -> Mem<()>
        requires { AllByRecursion (λ (other : W). nat_eq (W.key other).message (W.key waiting).message ≡ true → W.key other ≡ W.key waiting) self.old }
        ensures ok { OnOk result (self.new ≡ with_in_place W.key waiting self.old) }
        ensures err { OnErr result (self.new ≡ self.old) }
    {
        let message = waiting.message();
        let Some(_) = self.waiting.get(&message) else {
            return Ok(());
        };
        self.waiting.insert(message, waiting)?;
        Ok(())
    }

    /// Lets the request go that this message made.
    pub fn remove(&mut self, message: u64)
        ensures { self.new ≡ filter (λ waiting. not (nat_eq (W.key waiting).message message)) self.old }
    {
        if let Some(waiting) = self.waiting.remove(&message) {
            self.ids.remove(waiting.id());
            self.documents.remove(waiting.path(), message);
            drop(waiting);
        }
    }

    /// Lets those go that are meant.
    pub fn release(&mut self, which: &Which<'_>)
        ensures { self.new ≡ filter (λ waiting. not (is_meant_by W.key which.now waiting)) self.old }
    {
        while let Some(message) = self.first(which) {
            self.remove(message);
        }
    }
}

/// A list of this number alone, or of none.
fn one(alloc: Global, number: Option<u64>) -> Mem<Vec<u64>>
    ensures { IfOk result (λ numbers. numbers.items ≡ option_to_list number) }
{
    let mut numbers = Vec::new(alloc);
    if let Some(number) = number {
        numbers.push(number)?;
    }
    Ok(numbers)
}

/// The requests that these messages made.
fn gather<'a, W>(alloc: Global, waiting: &'a BTreeMap<u64, W>, numbers: &[u64]) -> Mem<Vec<&'a W>>
    ensures { IfOk result (λ found. map (λ waiting. waiting.now) found.items ≡ found_in waiting.now numbers.now) }
{
    let mut found = Vec::new(alloc);
    for number in numbers {
        if let Some(waiting) = waiting.get(number) {
            found.push(waiting)?;
        }
    }
    Ok(found)
}
