//! The reasons why a value isn't read.

ghost use Rattle.std.specs.Prelude.{◌≡◌};
ghost use Rattle.rc_doc.specs.declared.refusal.Refusal.TheVariants as refusals;

use std::alloc::{AllocError, AllocFailed};

/// The reason why a value isn't read.
#[derive(Clone, Copy, Debug, PartialEq, Eq)]
pub enum Refusal {
    /// Memory ran out.
    Memory,
    /// The value isn't of the type that was asked for.
    NotDoc,
}

impl From<AllocError> for Refusal {
    ghost from_gives = { λ _ refusal. refusal ≡ refusals.Memory };

    fn from(_error: AllocError) -> Refusal {
        Refusal::Memory
    }
}

impl<T: Drop> From<AllocFailed<T>> for Refusal {
    ghost from_gives = { λ _ refusal. refusal ≡ refusals.Memory };

    fn from(_error: AllocFailed<T>) -> Refusal {
        Refusal::Memory
    }
}
