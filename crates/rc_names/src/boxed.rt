//! An owned value on the heap.

ghost use Rattle.std.specs.Prelude.{◌≡◌, IfOk};
ghost use Rattle.std.specs.Borrow.{sem};

use std::alloc::{AllocError, Global};
use std::marker::Model;

/// A `Box` that contracts see as its value, so that the copy of a tree equals the tree.
#[derive(Debug, Drop)]
pub struct Boxed<T> {
    inner: Box<T>,
}

impl<T> Model for Boxed<T> {
    ghost Value = { T };

    ghost coded = { T.code };

    ghost view = { λ it. it.inner.value };
}

impl<T> Boxed<T> {
    ghost use Rattle.rc_names.specs.Lends.boxed.{lends_value};

    /// Returns the value.
    pub fn get(&self) -> &T
        ensures { result.now ≡ self.now }
    {
        &self.inner
    }

    /// Returns the value, to be changed in its place.
    pub fn get_mut(&mut self) -> &mut T
        ensures* writes_back { sem 𝓛 (lends_value T.row self.entry result) }
        ensures value { result.now ≡ self.old }
    {
        &mut self.inner
    }

    /// Returns the heap that the value is on.
    pub fn allocator(&self) -> Global {
        *Box::allocator(&self.inner)
    }

    /// Takes the value out of its box.
    pub fn into_inner(self) -> T
        ensures { result ≡ self }
    {
        let Boxed { inner } = self;
        Box::into_inner(inner)
    }
}

impl<T: Drop> Boxed<T> {
    /// Boxes a value. Fails only when out of memory.
    pub fn new(alloc: Global, value: T) -> Result<Boxed<T>, AllocError>
        ensures { IfOk result (λ boxed. boxed ≡ value) }
    {
        Ok(Boxed {
            inner: Box::new(alloc, value)?,
        })
    }
}
