//! Lists that copies share.

ghost use Rattle.std.specs.Prelude.{◌≡◌, ◌<◌, ◌^◌, [], ◌∷◌, ◌++◌, IfOk, length, take};

use cl_base::{List, Mem};
use std::alloc::Global;
use std::marker::Model;
use std::sync::Arc;

/// A list of fewer than 2^32 items. A copy costs one count, however long the list is, and the empty list takes no memory.
#[derive(Drop)]
pub struct Shared<T> {
    items: Option<Arc<List<T>, Global>>,
}

impl<T> Model for Shared<T> {
    ghost use Rattle.std.specs.Prelude.{List, [], None, Some};
    ghost use Rattle.std.specs.Coded.{coded_list};

    ghost Value = { List T };

    ghost coded = { coded_list T.code };

    ghost view = { λ it. elim it.items [ None ↦ [] | Some items ↦ items.value ] };
}

impl<T> Shared<T> {
    /// The empty list.
    pub fn new() -> Shared<T>
        ensures { result ≡ [] }
    {
        Shared { items: None }
    }

    /// The items in order.
    pub fn as_slice(&self) -> &[T]
        ensures value { result.now ≡ self.now }
        ensures room { length result.now < 2 ^ 32 }
    {
        match &self.items {
            Some(items) => items.as_slice(),
            None => &[],
        }
    }
}

impl<T: Drop> Shared<T> {
    /// One more owner of the same list.
    pub fn share(&self) -> Mem<Shared<T>>
        ensures { IfOk result (λ copy. copy ≡ self.now) }
    {
        match &self.items {
            Some(items) => {
                let items = items.clone()?;
                Ok(Shared { items: Some(items) })
            }
            None => Ok(Shared::new()),
        }
    }

    /// A list that has no other owner.
    pub(crate) fn of(alloc: Global, list: List<T>) -> Mem<Shared<T>>
        ensures { IfOk result (λ it. it ≡ list) }
    {
        if list.is_empty() {
            return Ok(Shared::new());
        }
        let items = Arc::new(alloc, list)?;
        Ok(Shared { items: Some(items) })
    }
}

/// A copy of a list.
fn copied<T: Copy>(alloc: Global, list: &[T]) -> Mem<List<T>>
    ensures { IfOk result (λ it. it ≡ list.now) }
{
    let mut copy = List::new(alloc);
    copy.extend(list)?;
    Ok(copy)
}

impl<T: Copy + Drop> Shared<T> {
    /// The list, to be changed: itself where it has no other owner, else a copy.
    pub(crate) fn into_list(self, alloc: Global) -> Mem<List<T>>
        ensures { IfOk result (λ list. list ≡ self) }
    {
        let Some(items) = self.items else {
            return Ok(List::new(alloc));
        };
        match Arc::try_unwrap(items) {
            Ok(list) => Ok(list),
            Err(items) => copied(alloc, items.as_slice()),
        }
    }

    /// The list and one more item.
    pub(crate) fn with(self, alloc: Global, item: T) -> Mem<Shared<T>>
        ensures { IfOk result (λ it. it ≡ self ++ item ∷ []) }
    {
        let mut list = self.into_list(alloc)?;
        list.push(item)?;
        Shared::of(alloc, list)
    }

    /// The list and these items.
    pub(crate) fn with_all(self, alloc: Global, items: &[T]) -> Mem<Shared<T>>
        ensures { IfOk result (λ it. it ≡ self ++ items.now) }
    {
        if items.is_empty() {
            return Ok(self);
        }
        let mut list = self.into_list(alloc)?;
        list.extend(items)?;
        Shared::of(alloc, list)
    }

    /// The first items of the list, so many at most.
    pub(crate) fn front(self, alloc: Global, count: usize) -> Mem<Shared<T>>
        ensures { IfOk result (λ it. it ≡ take count self) }
    {
        if count >= self.as_slice().len() {
            return Ok(self);
        }
        let mut list = self.into_list(alloc)?;
        list.truncate(count);
        Shared::of(alloc, list)
    }
}
