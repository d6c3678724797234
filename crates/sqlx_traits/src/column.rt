//! A column of a row or of a statement.
ghost use Rattle.std.specs.Prelude.{◌≡◌, ℕ, IfOk, List};
ghost use Rattle.std.specs.Option.{option_copied};

use crate::Database;
use sqlx_text::{OutOfMemory, UStr};
use std::alloc::Global;

/// A column.
pub trait Column<DB: Database>: Sized {
    ghost use Rattle.sqlx_traits.specs.declared.column.ColumnOrigin.{ColumnOrigin};
    ghost use Rattle.sqlx_traits.specs.declared.column.ColumnOrigin.TheVariants.{Unknown};

    /// Its position.
    ghost at: { Self → ℕ };

    /// Its name.
    ghost named: { Self → List ℕ };

    /// The type of its values.
    ghost typed: { Self → DB.TypeInfo };

    /// Where its values come from.
    ghost origin_of: { Self → ColumnOrigin } = { λ _. Unknown };

    /// Its position, from 0.
    fn ordinal(&self) -> usize
        ensures { result ≡ at self.now };

    /// Its name.
    fn name(&self) -> &str
        ensures { result.now ≡ named self.now };

    /// The type of its values.
    fn type_info(&self) -> &DB::TypeInfo
        ensures { result.now ≡ typed self.now };

    /// Where its values come from; `Unknown` where the driver can't tell.
    fn origin(&self) -> ColumnOrigin
        ensures { result ≡ origin_of self.now };
}

/// A column of a table.
#[derive(Debug, Drop)]
pub struct TableColumn {
    pub table: UStr,
    pub name: UStr,
}

/// Where the values of a column come from.
#[derive(Debug, Drop)]
pub enum ColumnOrigin {
    /// A column of a table.
    Table(TableColumn),
    /// Something that is computed.
    Expression,
    /// The driver can't tell.
    Unknown,
}

impl TableColumn {
    /// The same column. In sqlx: `clone`.
    pub fn try_clone(&self, alloc: Global) -> Result<TableColumn, OutOfMemory>
        ensures { IfOk result (λ copy. copy ≡ self.now) }
    {
        let table = self.table.try_clone(alloc)?;
        match self.name.try_clone(alloc) {
            Ok(name) => Ok(TableColumn { table, name }),
            Err(refused) => {
                drop(table);
                Err(refused)
            }
        }
    }
}

impl ColumnOrigin {
    ghost use Rattle.sqlx_traits.specs.Origin.{table_of};

    /// The table's column, where the values come from one.
    pub fn table_column(&self) -> Option<&TableColumn>
        ensures { option_copied result ≡ table_of self.now }
    {
        match self {
            ColumnOrigin::Table(column) => Some(column),
            _ => None,
        }
    }

    /// The same origin. In sqlx: `clone`.
    pub fn try_clone(&self, alloc: Global) -> Result<ColumnOrigin, OutOfMemory>
        ensures { IfOk result (λ copy. copy ≡ self.now) }
    {
        match self {
            ColumnOrigin::Table(column) => match column.try_clone(alloc) {
                Ok(column) => Ok(ColumnOrigin::Table(column)),
                Err(refused) => Err(refused),
            },
            ColumnOrigin::Expression => Ok(ColumnOrigin::Expression),
            ColumnOrigin::Unknown => Ok(ColumnOrigin::Unknown),
        }
    }
}
