//! Values that can be read.
ghost use Rattle.std.specs.Prelude.{◌≡◌, Result};
ghost use Rattle.sqlx_text.specs.declared.fault.Fault.{Fault};

use crate::{Database, Value};
use sqlx_text::Fault;
use std::alloc::Global;

/// A value that can be read, and may borrow from what it is read of.
pub trait Decode<'r, DB: Database>: Sized {
    /// What may be read of a value.
    ghost reads: { DB.Value → Result Self Fault → Type 0 };

    /// Reads a value.
    fn decode(alloc: Global, value: &'r DB::Value) -> Result<Self, Fault>
        ensures { reads value.now result };
}

/// A value that can be read and owns what it read. In sqlx: `for<'r> Decode<'r, DB>`.
pub trait DecodeOwned<DB: Database>: Sized {
    /// What may be read of a value.
    ghost reads: { DB.Value → Result Self Fault → Type 0 };

    /// Reads a value.
    fn decode_owned(alloc: Global, value: &DB::Value) -> Result<Self, Fault>
        ensures { reads value.now result };
}

impl<'r, DB: Database, T: Decode<'r, DB>> Decode<'r, DB> for Option<T> {
    ghost use Rattle.sqlx_traits.specs.Reads.{ReadsOption};

    ghost reads = { λ value r. ReadsOption (DB.Value.null value) (T.reads value) r };

    fn decode(alloc: Global, value: &'r DB::Value) -> Result<Option<T>, Fault> {
        if value.is_null() {
            return Ok(None);
        }
        match T::decode(alloc, value) {
            Ok(read) => Ok(Some(read)),
            Err(fault) => Err(fault),
        }
    }
}

impl<DB: Database, T: DecodeOwned<DB>> DecodeOwned<DB> for Option<T> {
    ghost use Rattle.sqlx_traits.specs.Reads.{ReadsOption};

    ghost reads = { λ value r. ReadsOption (DB.Value.null value) (T.reads value) r };

    fn decode_owned(alloc: Global, value: &DB::Value) -> Result<Option<T>, Fault> {
        if value.is_null() {
            return Ok(None);
        }
        match T::decode_owned(alloc, value) {
            Ok(read) => Ok(Some(read)),
            Err(fault) => Err(fault),
        }
    }
}
