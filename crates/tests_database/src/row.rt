//! Columns and rows.
ghost use Rattle.std.specs.Prelude.{◌≡◌, length, position};
ghost use Rattle.std.specs.Str.{bytes_eq};

use crate::{Toy, ToyType, ToyValue};
use sqlx_text::{Error, OutOfMemory, UStr};
use sqlx_traits::*;
use std::alloc::Global;

/// A column of a row or of a statement.
#[derive(Drop)]
pub struct ToyColumn {
    pub ordinal: usize,
    pub name: UStr,
    pub type_info: ToyType,
}

impl Column<Toy> for ToyColumn {
    ghost at = { λ column. column.ordinal };

    ghost named = { λ column. column.name };

    ghost typed = { λ column. column.type_info };

    fn ordinal(&self) -> usize {
        self.ordinal
    }

    fn name(&self) -> &str {
        self.name.as_str()
    }

    fn type_info(&self) -> &ToyType {
        &self.type_info
    }

    fn origin(&self) -> ColumnOrigin {
        ColumnOrigin::Unknown
    }
}

/// A row: as many values as columns.
#[derive(Drop)]
pub struct ToyRow {
    columns: Vec<ToyColumn>,
    values: Vec<ToyValue>,
    ghost as_many: { length values.items ≡ length columns.items },
}

impl ToyRow {
    /// A row without columns.
    pub fn new(alloc: Global) -> ToyRow {
        ToyRow {
            columns: Vec::new(alloc),
            values: Vec::new(alloc),
        }
    }

    /// The row with a column and its value behind the others.
    pub fn with(self, column: ToyColumn, value: ToyValue) -> Result<ToyRow, OutOfMemory> {
        let ToyRow {
            mut columns,
            mut values,
        } = self;
        columns.push(column)?;
        values.push(value)?;
        Ok(ToyRow { columns, values })
    }
}

impl Row<Toy> for ToyRow {
    ghost use Rattle.std.specs.Prelude.{true};

    ghost described = { λ row. row.columns.items };

    ghost values = { λ row. row.values.items };

    ghost NAMES_OWN = { true };

    const NAMES_OWN: bool = true;

    fn columns(&self) -> &[ToyColumn] {
        self.columns.as_slice()
    }

    fn value(&self, at: usize) -> &ToyValue {
        &self.values[at]
    }
}

impl ColumnIndex<ToyRow> for usize {
    ghost use Rattle.std.specs.Prelude.{decimal, length};
    ghost use Rattle.sqlx_traits.specs.Places.{place_of_position};

    ghost place = { λ at row. place_of_position at (length row.columns.items) };

    ghost shown = { λ at. decimal at };

    fn index(&self, _alloc: Global, row: &ToyRow) -> Result<usize, Error> {
        index_of_position(*self, row.columns.len())
    }

    fn label(&self, alloc: Global) -> Result<UStr, OutOfMemory> {
        label_of_position(alloc, *self)
    }
}

// The position of the first column of a name.
fn position_of(columns: &Vec<ToyColumn>, name: &str) -> Option<usize>
    ensures { result ≡ position (λ column. bytes_eq column.name name.now) columns.now.items }
{
    columns
        .iter()
        .position(|column| column.name.as_str() == name)
}

impl ColumnIndex<ToyRow> for &str {
    ghost use Rattle.std.specs.Prelude.{position};
    ghost use Rattle.std.specs.Str.{bytes_eq};
    ghost use Rattle.sqlx_traits.specs.Places.{in_quotes, place_of_name};

    ghost place = { λ name row. place_of_name (position (λ column. bytes_eq column.name name.now) row.columns.items) name.now };

    ghost shown = { λ name. in_quotes name.now };

    fn index(&self, alloc: Global, row: &ToyRow) -> Result<usize, Error> {
        index_of_name(alloc, position_of(&row.columns, *self), *self)
    }

    fn label(&self, alloc: Global) -> Result<UStr, OutOfMemory> {
        label_of_name(alloc, *self)
    }
}
