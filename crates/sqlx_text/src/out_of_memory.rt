//! Want of memory, which is merged with no other refusal: each conversion keeps it.

use crate::{Error, Fault};
use std::alloc::{AllocError, AllocFailed};

/// Want of memory.
#[derive(Clone, Copy, Debug, PartialEq, Eq, thiserror::Error)]
#[error("out of memory")]
pub struct OutOfMemory;

impl From<AllocError> for OutOfMemory {
    fn from(_failed: AllocError) -> OutOfMemory {
        OutOfMemory
    }
}

impl<T: Drop> From<AllocFailed<T>> for OutOfMemory {
    fn from(failed: AllocFailed<T>) -> OutOfMemory {
        drop(failed);
        OutOfMemory
    }
}

impl From<OutOfMemory> for Fault {
    ghost use Rattle.std.specs.Prelude.{◌≡◌};
    ghost use Rattle.sqlx_text.specs.declared.fault.Fault.TheVariants as fault;

    ghost from_gives = { λ _ given. given ≡ fault.OutOfMemory };

    fn from(_want: OutOfMemory) -> Fault {
        Fault::OutOfMemory
    }
}

impl From<AllocError> for Fault {
    ghost use Rattle.std.specs.Prelude.{◌≡◌};
    ghost use Rattle.sqlx_text.specs.declared.fault.Fault.TheVariants as fault;

    ghost from_gives = { λ _ given. given ≡ fault.OutOfMemory };

    fn from(_failed: AllocError) -> Fault {
        Fault::OutOfMemory
    }
}

impl From<OutOfMemory> for Error {
    ghost use Rattle.std.specs.Prelude.{◌≡◌};
    ghost use Rattle.sqlx_text.specs.declared.error.Error.TheVariants as error;

    ghost from_gives = { λ _ given. given ≡ error.OutOfMemory };

    fn from(_want: OutOfMemory) -> Error {
        Error::OutOfMemory
    }
}

impl From<AllocError> for Error {
    ghost use Rattle.std.specs.Prelude.{◌≡◌};
    ghost use Rattle.sqlx_text.specs.declared.error.Error.TheVariants as error;

    ghost from_gives = { λ _ given. given ≡ error.OutOfMemory };

    fn from(_failed: AllocError) -> Error {
        Error::OutOfMemory
    }
}
