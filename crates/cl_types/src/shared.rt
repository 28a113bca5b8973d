ghost use Rattle.std.specs.Prelude.{◌≡◌, IfOk};

use cl_base::Mem;
use std::alloc::Global;
use std::marker::Model;
use std::sync::Arc;

/// A value that its owners share: a copy costs one count, whatever the value's size.
#[derive(Drop)]
pub struct Shared<T> {
    inner: Arc<T, Global>,
}

impl<T> Model for Shared<T> {
    ghost Value = { T };

    ghost coded = { T.code };

    ghost view = { λ it. it.inner.value };
}

impl<T> Shared<T> {
    /// The value.
    pub fn get(&self) -> &T
        ensures { result.now ≡ self.now }
    {
        &self.inner
    }
}

impl<T: Drop> Shared<T> {
    /// A value of its own, with one owner.
    pub fn new(alloc: Global, value: T) -> Mem<Shared<T>>
        ensures { IfOk result (λ it. it ≡ value) }
    {
        let inner = Arc::new(alloc, value)?;
        Ok(Shared { inner })
    }

    /// One more owner of the same value.
    pub fn share(&self) -> Mem<Shared<T>>
        ensures { IfOk result (λ it. it ≡ self.now) }
    {
        let inner = self.inner.clone()?;
        Ok(Shared { inner })
    }
}
