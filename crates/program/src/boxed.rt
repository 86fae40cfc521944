//! Values on the heap that contracts see as themselves.

ghost use Rattle.std.specs.Prelude.{◌≡◌, IfOk};

use base::memory::NoMemory;
use std::alloc::Global;
use std::marker::Model;

/// A value on the heap.
#[derive(Drop)]
pub struct Boxed<T> {
    inner: Box<T>,
}

impl<T> Model for Boxed<T> {
    ghost Value = { T };

    ghost view = { λ b. b.inner.value };
}

impl<T: Drop> Boxed<T> {
    /// Returns the value on the heap.
    pub fn new(alloc: Global, item: T) -> Result<Boxed<T>, NoMemory>
        ensures { IfOk result (λ boxed. boxed ≡ item) }
    {
        Ok(Boxed {
            inner: Box::new(alloc, item)?,
        })
    }

    /// Returns the value.
    pub fn get(&self) -> &T
        ensures { result.now ≡ self.now }
    {
        &self.inner
    }
}
