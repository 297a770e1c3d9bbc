//! Copies that take an allocator.

ghost use Rattle.std.specs.Prelude.{◌≡◌, IfOk};

use std::alloc::{AllocError, Global};

/// A type whose copies need an allocator.
pub trait CloneIn: Drop {
    /// Returns a copy, which equals the value. Fails only when out of memory.
    fn clone_in(&self, alloc: Global) -> Result<Self, AllocError>
        ensures { IfOk result (λ copy. copy ≡ self.now) };
}

impl<T: CloneIn> CloneIn for Option<T> {
    fn clone_in(&self, alloc: Global) -> Result<Option<T>, AllocError> {
        match self {
            Some(part) => Ok(Some(part.clone_in(alloc)?)),
            None => Ok(None),
        }
    }
}
