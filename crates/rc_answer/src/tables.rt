//! Sending the two tables level by level: the parts of a level are sent one after the other, and those inside of them
//! make the next level. So a deep tree takes no stack, and the references to two levels all the memory.

ghost use Rattle.std.specs.Prelude.{◌≡◌, IfOk, Ok};

use serde::Serializer;
use std::alloc::AllocError;

pub mod blocks;
pub mod values;

/// Returns what a call found. Where it ran out of memory, the error is the serializer's own.
pub fn found<S: Serializer, T: Drop>(out: &S, call: Result<T, AllocError>) -> Result<T, S::Error>
    ensures { IfOk result (λ x. call ≡ Ok x) }
{
    match call {
        Ok(x) => Ok(x),
        Err(_) => Err(out.custom("out of memory")),
    }
}
