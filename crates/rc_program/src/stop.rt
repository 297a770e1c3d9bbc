//! The reasons why the program stops before its answer is written, each of which is a status.

ghost use Rattle.std.specs.Prelude.{◌≡◌};
ghost use Rattle.rc_program.specs.declared.stop.Stop.TheVariants as stops;
ghost use Rattle.rc_program.specs.inside.Stop.{status_from};

use crate::status::Status;
use std::alloc::{AllocError, AllocFailed};
use thiserror::Error;

/// The reason why a step of the program stops it. Nothing prints these texts.
#[derive(Clone, Copy, Debug, PartialEq, Eq, Error)]
pub enum Stop {
    #[error("the words name no command")]
    Usage,
    #[error("the bytes are no JSON")]
    NotJson,
    #[error("the value is no document")]
    NotDoc,
    #[error("a call of the source failed")]
    ReadFault,
    #[error("a call of the sink failed")]
    WriteFault,
    #[error("there are more bytes than a document may have")]
    TooLarge,
    #[error("memory ran out")]
    NoMemory,
    #[error("the scope blocks have too many slots")]
    TooManySlots,
}

impl From<AllocError> for Stop {
    ghost from_gives = { λ _ stop. stop ≡ stops.NoMemory };

    fn from(_error: AllocError) -> Stop {
        Stop::NoMemory
    }
}

impl<T: Drop> From<AllocFailed<T>> for Stop {
    ghost from_gives = { λ _ stop. stop ≡ stops.NoMemory };

    fn from(_error: AllocFailed<T>) -> Stop {
        Stop::NoMemory
    }
}

/// Returns the status of steps that stopped the program, or that came to their end with one.
pub fn status_from(end: Result<Status, Stop>) -> Status
    ensures { result ≡ status_from end }
{
    match end {
        Ok(status) => status,
        Err(Stop::Usage) => Status::Usage,
        Err(Stop::NotJson) => Status::NotJson,
        Err(Stop::NotDoc) => Status::NotDoc,
        Err(Stop::ReadFault) => Status::ReadFault,
        Err(Stop::WriteFault) => Status::WriteFault,
        Err(Stop::TooLarge) => Status::TooLarge,
        Err(Stop::NoMemory) => Status::NoMemory,
        Err(Stop::TooManySlots) => Status::TooManySlots,
    }
}
