//! A statement that a database prepared.
ghost use Rattle.std.specs.Prelude.{◌≡◌, ℕ, IfOk, List, Ok};
ghost use Rattle.sqlx_traits.specs.Parameters.{Parameters, parameters_seen};
ghost use Rattle.sqlx_traits.specs.Places.{IsGiven, at_place};
ghost use Rattle.sqlx_traits.specs.Reads.{Answers};

use crate::column_index::item_at;
use crate::{ColumnIndex, Database, Either};
use sqlx_text::{Error, OutOfMemory, SqlStr};
use std::alloc::Global;

/// A prepared statement.
pub trait Statement<DB: Database>: Sized {
    /// Its text.
    ghost text: { Self → List ℕ };

    /// The columns of its rows.
    ghost described: { Self → List DB.Column };

    /// The types of its parameters, or how many there are, as far as the driver can tell.
    ghost takes: { Self → Parameters DB.TypeInfo };

    /// Its text, where the statement isn't needed any more.
    fn into_sql(self) -> SqlStr
        ensures { result ≡ text self };

    /// Its text.
    fn sql(&self) -> &SqlStr
        ensures { result.now ≡ text self.now };

    /// The columns of its rows.
    fn columns(&self) -> &[DB::Column]
        ensures { result.now ≡ described self.now };

    /// The types of its parameters, or how many there are, as far as the driver can tell.
    fn parameters(&self) -> Option<Either<&[DB::TypeInfo], usize>>
        ensures { parameters_seen result ≡ takes self.now };

    /// The column at an index.
    final fn try_column<I: ColumnIndex<Self> + Drop>(
        &self,
        alloc: Global,
        index: I,
    ) -> Result<&DB::Column, Error>
        ensures { Answers (λ column. column.now) Error.OutOfMemory (at_place (described self.now) (I.place index self.now)) result }
    {
        match index.index(alloc, self) {
            Ok(at) => item_at(self.columns(), at),
            Err(error) => Err(error),
        }
    }

    /// The column at an index, of which it is known that it names one.
    final fn column<I: ColumnIndex<Self> + Drop>(
        &self,
        alloc: Global,
        index: I,
    ) -> Result<&DB::Column, OutOfMemory>
        requires { IsGiven (at_place (described self.now) (I.place index self.now)) }
        ensures { IfOk result (λ column. at_place (described self.now) (I.place index self.now) ≡ Ok column.now) }
    {
        match self.try_column(alloc, index) {
            Ok(column) => Ok(column),
            Err(error) => {
                drop(error);
                Err(OutOfMemory)
            }
        }
    }
}
