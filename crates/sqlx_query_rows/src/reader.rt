//! What each row of a query is read as: a value that is made of it, or that of its first column.
ghost use Rattle.std.specs.Prelude.{Result};
ghost use Rattle.sqlx_text.specs.declared.error.Error.{Error};

use crate::{FromColumn, FromRow};
use sqlx_text::Error;
use sqlx_traits::Database;
use std::alloc::Global;
use std::marker::PhantomData;

/// What reads each row alike.
pub trait Reader<DB: Database>: Sized {
    type Out: Drop;

    /// What a row may be read as: a value, or a refusal.
    ghost reads: { DB.Row → Result Self.Out Error → Type 0 };

    /// Reads a row.
    fn read(alloc: Global, row: &DB::Row) -> Result<Self::Out, Error>
        ensures { reads row.now result };
}

/// Each row becomes a value that is made of it.
pub struct AsRows<O> {
    of: PhantomData<O>,
}

/// Each row becomes the value of its first column.
pub struct AsScalars<O> {
    of: PhantomData<O>,
}

impl<DB: Database, O: FromRow<DB> + Drop> Reader<DB> for AsRows<O> {
    type Out = O;

    ghost reads = { O.made };

    fn read(alloc: Global, row: &DB::Row) -> Result<O, Error> {
        O::from_row(alloc, row)
    }
}

impl<DB: Database, O: FromColumn<DB>> Reader<DB> for AsScalars<O> {
    type Out = O;

    ghost reads = { O.column 0 };

    fn read(alloc: Global, row: &DB::Row) -> Result<O, Error> {
        O::from_column(alloc, row, 0)
    }
}
