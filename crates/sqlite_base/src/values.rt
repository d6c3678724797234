//! Arguments as the database takes them, and its rows as those of `Any`.
ghost use Rattle.std.specs.Prelude.{◌≡◌, IfErr, IfOk, OnOk, Some, map};
ghost use Rattle.sqlite.specs.Values.{bound, bound_value};
ghost use Rattle.sqlite_value.specs.Order.{column};
ghost use Rattle.sqlite_value.specs.Value.{owned};
ghost use Rattle.sqlite_base.specs.Refusals.{IsUnfit, refusal_error};
ghost use Rattle.sqlite_base.specs.Queries.{GainsCell, GainsCells, all_taken, given, no_cells, taken, with_cell};

use crate::refusal::Refusal;
use sqlite::Row;
use sqlite::types::{Bytes, ValueRef};
use sqlx_any::{
    AnyArguments, AnyBlob, AnyColumn, AnyRow, AnyTypeInfo, AnyValue, AnyValueKind, ColumnNames,
};
use sqlx_text::{AnyTypeInfoKind, OutOfMemory, UStr};
use std::alloc::Global;
use std::marker::Model;

/// A value, lent to the database.
fn lent(value: &AnyValueKind) -> ValueRef<'_>
    ensures { bound_value (owned result) ≡ taken value.now }
{
    match value {
        AnyValueKind::Null(_) => ValueRef::Null,
        AnyValueKind::Bool(yes) => ValueRef::Int(if *yes { 1 } else { 0 }),
        AnyValueKind::SmallInt(n) => ValueRef::Int(*n as i64),
        AnyValueKind::Integer(n) => ValueRef::Int(*n as i64),
        AnyValueKind::BigInt(n) => ValueRef::Int(*n),
        AnyValueKind::Text(text) | AnyValueKind::TextSlice(text) => {
            ValueRef::Text(text.as_str().as_bytes())
        }
        AnyValueKind::Blob(blob) => ValueRef::Blob(blob.as_slice()),
    }
}

/// Values, lent to the database.
fn lent_each(alloc: Global, values: &[AnyValueKind]) -> Result<Vec<ValueRef<'_>>, OutOfMemory>
    ensures { IfOk result (λ lent. bound lent.items ≡ map taken values.now) }
{
    let mut all = Vec::new(alloc);
    for value in values {
        if all.push(lent(value)).is_err() {
            return Err(OutOfMemory);
        }
    }
    Ok(all)
}

/// The values of arguments, lent to the database.
pub(crate) fn lent_all(
    alloc: Global,
    arguments: &Option<AnyArguments>,
) -> Result<Vec<ValueRef<'_>>, OutOfMemory>
    ensures { IfOk result (λ lent. bound lent.items ≡ all_taken arguments.now) }
{
    match arguments {
        Some(arguments) => lent_each(alloc, arguments.values.as_slice()),
        None => Ok(Vec::new(alloc)),
    }
}

/// A text of the database, whose bytes needn't be one.
fn text(alloc: Global, bytes: &[u8]) -> Result<UStr, Refusal>
    ensures read { IfOk result (λ text. text ≡ bytes.now) }
    ensures refused { IfErr result (λ refusal. IsUnfit (refusal_error refusal)) }
{
    match std::str::from_utf8(bytes) {
        Ok(text) => Ok(UStr::new(alloc, text)?),
        Err(_) => Err(Refusal::NoKind),
    }
}

/// A value of the database as one of `Any`.
fn read(alloc: Global, value: ValueRef<'_>) -> Result<AnyValueKind, Refusal>
    ensures read { IfOk result (λ cell. given (owned value.entry) ≡ Some cell) }
    ensures refused { IfErr result (λ refusal. IsUnfit (refusal_error refusal)) }
{
    match value {
        ValueRef::Null => Ok(AnyValueKind::Null(AnyTypeInfoKind::Null)),
        ValueRef::Int(n) => Ok(AnyValueKind::BigInt(n)),
        ValueRef::Text(bytes) => Ok(AnyValueKind::Text(text(alloc, bytes)?)),
        ValueRef::Blob(bytes) => Ok(AnyValueKind::Blob(AnyBlob::new(alloc, bytes)?)),
        ValueRef::Real(_) => Err(Refusal::NoKind),
    }
}

/// The value at a place, null where the row has none there.
fn read_at(alloc: Global, row: &Row, at: usize) -> Result<AnyValueKind, Refusal>
    ensures read { IfOk result (λ cell. given (column row.now at) ≡ Some cell) }
    ensures refused { IfErr result (λ refusal. IsUnfit (refusal_error refusal)) }
{
    match row.get_ref(at) {
        Ok(value) => read(alloc, value),
        Err(_) => Ok(AnyValueKind::Null(AnyTypeInfoKind::Null)),
    }
}

/// A row under construction.
#[derive(Drop)]
struct Cells {
    names: ColumnNames,
    columns: Vec<AnyColumn>,
    values: Vec<AnyValue>,
}

impl Model for Cells {
    ghost use Rattle.sqlx_any.specs.Rows.{RowParts};

    ghost Value = { RowParts };

    ghost view = { λ cells. record { names = cells.names; columns = cells.columns.items; values = cells.values.items } };
}

impl Cells {
    fn new(alloc: Global) -> Cells
        ensures { result ≡ no_cells }
    {
        Cells {
            names: ColumnNames::new(alloc),
            columns: Vec::new(alloc),
            values: Vec::new(alloc),
        }
    }

    /// One more cell under this name, of the next of the row's values.
    fn read_next(&mut self, alloc: Global, name: &[u8], row: &Row) -> Result<(), Refusal>
        ensures read { OnOk result (GainsCell row.now name.now self.old self.new) }
        ensures refused { IfErr result (λ refusal. IsUnfit (refusal_error refusal)) }
    {
        let name = text(alloc, name)?;
        let cell = read_at(alloc, row, self.values.len())?;
        self.add(alloc, name, cell)?;
        Ok(())
    }

    /// One more cell, whose column has the kind of its value.
    fn add(&mut self, alloc: Global, name: UStr, kind: AnyValueKind) -> Result<(), OutOfMemory>
        ensures { OnOk result (self.new ≡ with_cell self.old name kind) }
    {
        let ordinal = self.values.len();
        let type_info = AnyTypeInfo { kind: kind.kind() };
        self.names.insert(alloc, name.try_clone(alloc)?, ordinal)?;
        let column = AnyColumn {
            ordinal,
            name,
            type_info,
        };
        if self.columns.push(column).is_err() || self.values.push(AnyValue { kind }).is_err() {
            return Err(OutOfMemory);
        }
        Ok(())
    }

    fn into_row(self) -> Result<AnyRow, Refusal>
        ensures row { IfOk result (λ row. row ≡ self) }
        ensures refused { IfErr result (λ refusal. IsUnfit (refusal_error refusal)) }
    {
        let Cells {
            names,
            columns,
            values,
        } = self;
        match AnyRow::new(names, columns, values) {
            Ok(row) => Ok(row),
            Err(error) => {
                drop(error);
                Err(Refusal::NoKind)
            }
        }
    }
}

/// A row of the database under these names of columns.
pub(crate) fn row(alloc: Global, names: &[Bytes], row: &Row) -> Result<AnyRow, Refusal>
    ensures row { IfOk result (λ shown. GainsCells row.now names.now no_cells shown) }
    ensures refused { IfErr result (λ refusal. IsUnfit (refusal_error refusal)) }
{
    let mut cells = Cells::new(alloc);
    for name in names {
        cells.read_next(alloc, name.as_slice(), row)?;
    }
    cells.into_row()
}
