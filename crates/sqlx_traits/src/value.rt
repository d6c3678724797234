//! A value of a row, and its reads into types that own what they read.
ghost use Rattle.std.specs.Prelude.{◌≡◌, Bool, true};
ghost use Rattle.sqlx_traits.specs.Reads.{Checked, GivesValue, NeverRefuses, ValueRead};

use crate::reads::{given, owned_checked};
use crate::{Database, DecodeOwned, SqlType, TypeInfo};
use sqlx_text::{Error, OutOfMemory};
use std::alloc::Global;

/// A value. Reads that borrow from it are the functions of [`crate::reads`].
pub trait Value<DB: Database>: Sized {
    /// The value itself, as one of the database.
    ghost itself: { Self → DB.Value };

    /// Its type.
    ghost type_of: { Self → DB.TypeInfo };

    /// Whether it is null.
    ghost null: { Self → Bool };

    /// The value itself, as one of the database. In sqlx: `as_ref`.
    fn as_value(&self) -> &DB::Value
        ensures { result.now ≡ itself self.now };

    /// Its type.
    fn type_info(&self) -> DB::TypeInfo
        ensures { result ≡ type_of self.now };

    /// Whether it is null.
    fn is_null(&self) -> bool
        ensures { result ≡ null self.now };

    /// Reads the value, whose type has to fit; an error is `Decode` or want of memory.
    final fn try_decode<T: DecodeOwned<DB> + SqlType<DB>>(&self, alloc: Global) -> Result<T, Error>
        ensures { ValueRead (Checked DB.Value.null DB.Value.type_of DB.TypeInfo.null_type DB.TypeInfo.named true T.called T.own_type T.reads_type T.reads (itself self.now)) result }
    {
        match owned_checked::<DB, T>(alloc, self.as_value(), true) {
            Ok(read) => Ok(read),
            Err(fault) => Err(Error::decode(fault)),
        }
    }

    /// Reads the value, whatever its type; an error is `Decode` or want of memory.
    final fn try_decode_unchecked<T: DecodeOwned<DB>>(&self, alloc: Global) -> Result<T, Error>
        ensures { ValueRead (T.reads (itself self.now)) result }
    {
        match T::decode_owned(alloc, self.as_value()) {
            Ok(read) => Ok(read),
            Err(fault) => Err(Error::decode(fault)),
        }
    }

    /// Reads the value, of which it is known that it can be read.
    final fn decode<T: DecodeOwned<DB> + SqlType<DB>>(
        &self,
        alloc: Global,
    ) -> Result<T, OutOfMemory>
        requires { NeverRefuses (ValueRead (Checked DB.Value.null DB.Value.type_of DB.TypeInfo.null_type DB.TypeInfo.named true T.called T.own_type T.reads_type T.reads (itself self.now))) }
        ensures { GivesValue (ValueRead (Checked DB.Value.null DB.Value.type_of DB.TypeInfo.null_type DB.TypeInfo.named true T.called T.own_type T.reads_type T.reads (itself self.now))) result }
    {
        given(self.try_decode::<T>(alloc))
    }

    /// Reads the value, whatever its type, of which it is known that it can be read.
    final fn decode_unchecked<T: DecodeOwned<DB>>(&self, alloc: Global) -> Result<T, OutOfMemory>
        requires { NeverRefuses (ValueRead (T.reads (itself self.now))) }
        ensures { GivesValue (ValueRead (T.reads (itself self.now))) result }
    {
        given(self.try_decode_unchecked::<T>(alloc))
    }
}
