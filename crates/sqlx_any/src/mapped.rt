//! The form in `Any` of a row that a database has of its own.
ghost use Rattle.std.specs.Prelude.{◌≡◌, ◌⊎◌, Result, decimal, length};
ghost use Rattle.sqlx_text.specs.declared.fault.Fault.{Fault};
ghost use Rattle.sqlx_text.specs.declared.kind.AnyTypeInfoKind.{AnyTypeInfoKind};
ghost use Rattle.sqlx_any.specs.Mapped.{NativeCell, NativeRow, NativeValue, OrNoMemory};
ghost use Rattle.sqlx_any_values.specs.Names.{AreBelow};
ghost use Rattle.sqlx_any_values.specs.declared.value.AnyValueKind.{AnyValueKind};

use crate::native::keep;
use crate::{AnyBlob, AnyColumn, AnyRow, AnyValue, AnyValueKind, ColumnNames};
use sqlx_text::{AnyTypeInfoKind, Error, Fault, UStr};
use sqlx_traits::{Column, Database, DecodeOwned, Row, TypeInfo, Value, label_of_position};
use std::alloc::Global;

/// A database whose values can be read by each kind: one for which the six Rust types can be read. Nothing else has to be written for it.
pub trait ReadsAnyKinds: Database {
    /// What a value that isn't null may be read as, by the Rust type of the kind.
    ghost kind_reads: { AnyTypeInfoKind → Self.Value → Result AnyValueKind Fault → Type 0 };

    /// Reads a value that isn't null by the Rust type of the kind.
    fn read_kind(
        alloc: Global,
        kind: AnyTypeInfoKind,
        value: &Self::Value,
    ) -> Result<AnyValueKind, Fault>
        ensures { kind_reads kind value.now result };
}

impl<DB: Database> ReadsAnyKinds for DB
where
    bool: DecodeOwned<DB>,
    i16: DecodeOwned<DB>,
    i32: DecodeOwned<DB>,
    i64: DecodeOwned<DB>,
    String: DecodeOwned<DB>,
    Vec<u8>: DecodeOwned<DB>,
{
    ghost use Rattle.sqlx_any.specs.Mapped.{KindRead};

    ghost kind_reads = { KindRead ⟦<bool as DecodeOwned<DB>>⟧.reads ⟦<i16 as DecodeOwned<DB>>⟧.reads ⟦<i32 as DecodeOwned<DB>>⟧.reads
        ⟦<i64 as DecodeOwned<DB>>⟧.reads ⟦<String as DecodeOwned<DB>>⟧.reads ⟦<Vec<u8> as DecodeOwned<DB>>⟧.reads };

    fn read_kind(
        alloc: Global,
        kind: AnyTypeInfoKind,
        value: &DB::Value,
    ) -> Result<AnyValueKind, Fault> {
        match kind {
            AnyTypeInfoKind::Null => Ok(AnyValueKind::Null(AnyTypeInfoKind::Null)),
            AnyTypeInfoKind::Bool => match <bool as DecodeOwned<DB>>::decode_owned(alloc, value) {
                Ok(read) => Ok(AnyValueKind::Bool(read)),
                Err(fault) => Err(fault),
            },
            AnyTypeInfoKind::SmallInt => match <i16 as DecodeOwned<DB>>::decode_owned(
                alloc, value,
            ) {
                Ok(read) => Ok(AnyValueKind::SmallInt(read)),
                Err(fault) => Err(fault),
            },
            AnyTypeInfoKind::Integer => match <i32 as DecodeOwned<DB>>::decode_owned(alloc, value) {
                Ok(read) => Ok(AnyValueKind::Integer(read)),
                Err(fault) => Err(fault),
            },
            AnyTypeInfoKind::BigInt => match <i64 as DecodeOwned<DB>>::decode_owned(alloc, value) {
                Ok(read) => Ok(AnyValueKind::BigInt(read)),
                Err(fault) => Err(fault),
            },
            AnyTypeInfoKind::Text => match <String as DecodeOwned<DB>>::decode_owned(alloc, value) {
                Ok(read) => Ok(AnyValueKind::Text(UStr::from_string(read))),
                Err(fault) => Err(fault),
            },
            AnyTypeInfoKind::Blob => match <Vec<u8> as DecodeOwned<DB>>::decode_owned(
                alloc, value,
            ) {
                Ok(read) => Ok(AnyValueKind::Blob(AnyBlob::from_vec(read))),
                Err(fault) => Err(fault),
            },
        }
    }
}

impl AnyRow {
    /// The form of a row of the database, whose columns these names find: each column with the value at its ordinal.
    ///
    /// The columns are taken in order. An error is `AnyDriverError` of a column's type without a kind, then
    /// `ColumnIndexOutOfBounds` of its ordinal, then `ColumnDecode` of its value's type without a kind, then `Decode`
    /// of a value that can't be read, or want of memory.
    pub fn map_from<DB: ReadsAnyKinds>(
        alloc: Global,
        row: &DB::Row,
        names: ColumnNames,
    ) -> Result<AnyRow, Error>
        requires { AreBelow names (length (DB.Row.described row.now)) }
        ensures { NativeRow DB.TypeInfo.kind DB.TypeInfo.named DB.Value.type_of DB.Value.null DB.kind_reads DB.Column.at DB.Column.named DB.Column.typed (DB.Row.described row.now) (DB.Row.values row.now) names result }
    {
        let mut columns = Vec::new(alloc);
        let mut values = Vec::new(alloc);
        for column in row.columns() {
            match cell::<DB>(alloc, row, column) {
                Ok((form, value)) => {
                    keep(&mut columns, form)?;
                    keep(&mut values, value)?;
                }
                Err(error) => return Err(error),
            }
        }
        Ok(AnyRow::of(names, columns, values))
    }
}

// A column and its value.
fn cell<DB: ReadsAnyKinds>(
    alloc: Global,
    row: &DB::Row,
    column: &DB::Column,
) -> Result<(AnyColumn, AnyValue), Error>
    ensures { OrNoMemory (NativeCell DB.TypeInfo.kind DB.TypeInfo.named DB.Value.type_of DB.Value.null DB.kind_reads DB.Column.at DB.Column.named DB.Column.typed (DB.Row.values row.now) column.now) result }
{
    let form = match AnyColumn::from_column::<DB>(alloc, column) {
        Ok(form) => form,
        Err(error) => return Err(error),
    };
    let index = column.ordinal();
    let len = row.len();
    if index >= len {
        drop(form);
        return Err(Error::ColumnIndexOutOfBounds { index, len });
    }
    match value_from::<DB>(alloc, row.value(index), index) {
        Ok(kind) => Ok((form, AnyValue { kind })),
        Err(error) => {
            drop(form);
            Err(error)
        }
    }
}

// The value of the column at a position.
fn value_from<DB: ReadsAnyKinds>(
    alloc: Global,
    value: &DB::Value,
    index: usize,
) -> Result<AnyValueKind, Error>
    ensures { OrNoMemory (NativeValue DB.TypeInfo.kind DB.TypeInfo.named DB.Value.type_of DB.Value.null DB.kind_reads (decimal index) value.now) result }
{
    let ty = value.type_info();
    let Some(kind) = ty.any_kind() else {
        let error = no_kind(alloc, index, ty.name());
        drop(ty);
        return Err(error);
    };
    drop(ty);
    if value.is_null() {
        return Ok(AnyValueKind::Null(kind));
    }
    match DB::read_kind(alloc, kind, value) {
        Ok(read) => Ok(read),
        Err(fault) => Err(Error::decode(fault)),
    }
}

// The refusal of a value whose type has no kind.
fn no_kind(alloc: Global, index: usize, name: &str) -> Error
    ensures { (result ≡ Error.ColumnDecode (decimal index) (Fault.NoKind name.now)) ⊎ (result ≡ Error.OutOfMemory) }
{
    let Ok(name) = UStr::new(alloc, name) else {
        return Error::OutOfMemory;
    };
    match label_of_position(alloc, index) {
        Ok(index) => Error::ColumnDecode {
            index,
            source: Fault::NoKind(name),
        },
        Err(_) => Error::OutOfMemory,
    }
}
