//! Typed reads that may borrow from what they read: the calls of sqlx's `Row` and `Value` of the same
//! names, as functions. A type that owns what it reads is read by the methods of `Row` and `Value`.
ghost use Rattle.std.specs.Prelude.{◌≡◌, ◌⊎◌, ◌||◌, Err, IfOk, Ok, true};
ghost use Rattle.sqlx_text.specs.declared.error.Error.{Error};
ghost use Rattle.sqlx_traits.specs.Places.{IsGiven};
ghost use Rattle.sqlx_traits.specs.Reads.{Checked, GivesValue, Misfit, NeverRefuses, RowChecked, RowRead, ValueRead, column_error, fits, mismatch_of, with_error};

use crate::sql_type::mismatched;
use crate::{ColumnIndex, Database, Decode, DecodeOwned, Row, SqlType, TypeInfo, Value};
use sqlx_text::{Error, Fault, OutOfMemory, UStr};
use std::alloc::Global;

/// Reads a value, whose type has to fit; an error is `Decode` or want of memory.
pub fn try_decode<'r, DB: Database, T: Decode<'r, DB> + SqlType<DB>>(
    alloc: Global,
    value: &'r DB::Value,
) -> Result<T, Error>
    ensures { ValueRead (Checked DB.Value.null DB.Value.type_of DB.TypeInfo.null_type DB.TypeInfo.named true T.called T.own_type T.reads_type T.reads value.now) result }
{
    match checked::<DB, T>(alloc, value, true) {
        Ok(read) => Ok(read),
        Err(fault) => Err(Error::decode(fault)),
    }
}

/// Reads a value, whatever its type; an error is `Decode` or want of memory.
pub fn try_decode_unchecked<'r, DB: Database, T: Decode<'r, DB>>(
    alloc: Global,
    value: &'r DB::Value,
) -> Result<T, Error>
    ensures { ValueRead (T.reads value.now) result }
{
    match T::decode(alloc, value) {
        Ok(read) => Ok(read),
        Err(fault) => Err(Error::decode(fault)),
    }
}

/// Reads a value, of which it is known that it can be read.
pub fn decode<'r, DB: Database, T: Decode<'r, DB> + SqlType<DB>>(
    alloc: Global,
    value: &'r DB::Value,
) -> Result<T, OutOfMemory>
    requires { NeverRefuses (ValueRead (Checked DB.Value.null DB.Value.type_of DB.TypeInfo.null_type DB.TypeInfo.named true T.called T.own_type T.reads_type T.reads value.now)) }
    ensures { GivesValue (ValueRead (Checked DB.Value.null DB.Value.type_of DB.TypeInfo.null_type DB.TypeInfo.named true T.called T.own_type T.reads_type T.reads value.now)) result }
{
    given(try_decode::<DB, T>(alloc, value))
}

/// Reads a value, whatever its type, of which it is known that it can be read.
pub fn decode_unchecked<'r, DB: Database, T: Decode<'r, DB>>(
    alloc: Global,
    value: &'r DB::Value,
) -> Result<T, OutOfMemory>
    requires { NeverRefuses (ValueRead (T.reads value.now)) }
    ensures { GivesValue (ValueRead (T.reads value.now)) result }
{
    given(try_decode_unchecked::<DB, T>(alloc, value))
}

/// Reads the value at an index, whose type has to fit.
///
/// An error is the index's refusal, `ColumnDecode` with the index's label, or want of memory.
pub fn try_get<'r, DB: Database, T: Decode<'r, DB> + SqlType<DB>, I: ColumnIndex<DB::Row> + Drop>(
    alloc: Global,
    row: &'r DB::Row,
    index: I,
) -> Result<T, Error>
where
    DB::Value: 'r,
    ensures { RowRead DB.Row.values I.place I.shown row.now index (Checked DB.Value.null DB.Value.type_of DB.TypeInfo.null_type DB.TypeInfo.named DB.Row.NAMES_OWN T.called T.own_type T.reads_type T.reads) result }
{
    match row.try_get_raw(alloc, &index) {
        Ok(value) => labelled::<DB::Row, I, T>(
            alloc,
            &index,
            checked::<DB, T>(alloc, value, DB::Row::NAMES_OWN),
        ),
        Err(error) => Err(error),
    }
}

/// Reads the value at an index, whatever its type.
pub fn try_get_unchecked<'r, DB: Database, T: Decode<'r, DB>, I: ColumnIndex<DB::Row> + Drop>(
    alloc: Global,
    row: &'r DB::Row,
    index: I,
) -> Result<T, Error>
where
    DB::Value: 'r,
    ensures { RowRead DB.Row.values I.place I.shown row.now index T.reads result }
{
    match row.try_get_raw(alloc, &index) {
        Ok(value) => labelled::<DB::Row, I, T>(alloc, &index, T::decode(alloc, value)),
        Err(error) => Err(error),
    }
}

/// Reads the value at an index, of which it is known that it can be read.
pub fn get<'r, DB: Database, T: Decode<'r, DB> + SqlType<DB>, I: ColumnIndex<DB::Row> + Drop>(
    alloc: Global,
    row: &'r DB::Row,
    index: I,
) -> Result<T, OutOfMemory>
where
    DB::Value: 'r,
    requires { NeverRefuses (RowChecked DB.Row.values I.place I.shown row.now index DB.Value.null DB.Value.type_of DB.TypeInfo.null_type DB.TypeInfo.named DB.Row.NAMES_OWN T.called T.own_type T.reads_type T.reads) }
    ensures { GivesValue (RowChecked DB.Row.values I.place I.shown row.now index DB.Value.null DB.Value.type_of DB.TypeInfo.null_type DB.TypeInfo.named DB.Row.NAMES_OWN T.called T.own_type T.reads_type T.reads) result }
{
    given(try_get::<DB, T, I>(alloc, row, index))
}

/// Reads the value at an index, whatever its type, of which it is known that it can be read.
pub fn get_unchecked<'r, DB: Database, T: Decode<'r, DB>, I: ColumnIndex<DB::Row> + Drop>(
    alloc: Global,
    row: &'r DB::Row,
    index: I,
) -> Result<T, OutOfMemory>
where
    DB::Value: 'r,
    requires { NeverRefuses (RowRead DB.Row.values I.place I.shown row.now index T.reads) }
    ensures { GivesValue (RowRead DB.Row.values I.place I.shown row.now index T.reads) result }
{
    given(try_get_unchecked::<DB, T, I>(alloc, row, index))
}

// Why the type doesn't fit the value, if it doesn't.
fn mismatch<DB: Database, T: SqlType<DB>>(
    alloc: Global,
    value: &DB::Value,
    names_own: bool,
) -> Option<Fault>
    ensures { Misfit (fits DB.Value.null DB.Value.type_of DB.TypeInfo.null_type T.reads_type value.now)
        (mismatch_of DB.TypeInfo.named names_own T.called T.own_type (DB.Value.type_of value.now)) result }
{
    if value.is_null() {
        return None;
    }
    let ty = value.type_info();
    let fits = ty.is_null() || T::compatible(&ty);
    let mismatch = if fits {
        None
    } else if names_own {
        Some(crate::mismatched_types::<DB, T>(alloc, &ty))
    } else {
        Some(mismatched::<DB, T>(alloc, &ty, None))
    };
    drop(ty);
    mismatch
}

// A read that looks at the value's type first.
fn checked<'r, DB: Database, T: Decode<'r, DB> + SqlType<DB>>(
    alloc: Global,
    value: &'r DB::Value,
    names_own: bool,
) -> Result<T, Fault>
    ensures { Checked DB.Value.null DB.Value.type_of DB.TypeInfo.null_type DB.TypeInfo.named names_own T.called T.own_type T.reads_type T.reads value.now result }
{
    match mismatch::<DB, T>(alloc, value, names_own) {
        Some(fault) => Err(fault),
        None => T::decode(alloc, value),
    }
}

// The same, into a type that owns what it reads.
pub(crate) fn owned_checked<DB: Database, T: DecodeOwned<DB> + SqlType<DB>>(
    alloc: Global,
    value: &DB::Value,
    names_own: bool,
) -> Result<T, Fault>
    ensures { Checked DB.Value.null DB.Value.type_of DB.TypeInfo.null_type DB.TypeInfo.named names_own T.called T.own_type T.reads_type T.reads value.now result }
{
    match mismatch::<DB, T>(alloc, value, names_own) {
        Some(fault) => Err(fault),
        None => T::decode_owned(alloc, value),
    }
}

/// What was read of a column, whose label stands in the error of one that can't be read. For a driver's own rows.
pub fn labelled<R, I: ColumnIndex<R>, T>(
    alloc: Global,
    index: &I,
    read: Result<T, Fault>,
) -> Result<T, Error>
    ensures { (result ≡ with_error (column_error (I.shown index.now)) read) ⊎ (result ≡ Err Error.OutOfMemory) }
{
    match read {
        Ok(read) => Ok(read),
        Err(fault) => Err(refused::<R, I>(alloc, index, fault)),
    }
}

// The error of a column that can't be read.
fn refused<R, I: ColumnIndex<R>>(alloc: Global, index: &I, fault: Fault) -> Error
    ensures { (result ≡ column_error (I.shown index.now) fault) ⊎ (result ≡ Error.OutOfMemory) }
{
    match fault {
        Fault::OutOfMemory => Error::OutOfMemory,
        source => match index.label(alloc) {
            Ok(index) => Error::ColumnDecode { index, source },
            Err(_) => {
                drop(source);
                Error::OutOfMemory
            }
        },
    }
}

/// A value that is known to be given, where there is memory.
pub fn given<T>(answer: Result<T, Error>) -> Result<T, OutOfMemory>
    requires { IsGiven answer }
    ensures { IfOk result (λ x. answer ≡ Ok x) }
{
    match answer {
        Ok(x) => Ok(x),
        Err(error) => {
            drop(error);
            Err(OutOfMemory)
        }
    }
}
