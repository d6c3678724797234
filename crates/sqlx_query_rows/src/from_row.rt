//! Values that are made of a row.
ghost use Rattle.std.specs.Prelude.{Result, ⊤};
ghost use Rattle.sqlx_text.specs.declared.error.Error.{Error};

use sqlx_text::Error;
use sqlx_traits::Database;
use std::alloc::Global;

/// A value that is made of a row.
pub trait FromRow<DB: Database>: Sized {
    /// What a row may become: a value, or a refusal. An impl that leaves it out says nothing of this.
    ghost made: { DB.Row → Result Self Error → Type 0 } = { λ _ _. ⊤ };

    /// Makes the value; an error is that of the first column that can't be read.
    fn from_row(alloc: Global, row: &DB::Row) -> Result<Self, Error>
        ensures { made row.now result };
}

impl<DB: Database> FromRow<DB> for () {
    ghost use Rattle.sqlx_query_rows.specs.FromRow.{Gives};

    ghost made = { λ _. Gives (record {}) };

    fn from_row(_alloc: Global, _row: &DB::Row) -> Result<Self, Error> {
        Ok(())
    }
}
