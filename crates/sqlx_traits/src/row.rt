//! A row, and the reads of its columns into types that own what they read.
ghost use Rattle.std.specs.Prelude.{◌≡◌, ◌<◌, ◌==◌, Bool, IfOk, List, Ok, Some, length, slice_get};
ghost use Rattle.sqlx_text.specs.declared.error.Error.{Error};
ghost use Rattle.sqlx_traits.specs.Places.{IsGiven, at_place};
ghost use Rattle.sqlx_traits.specs.Reads.{Answers, Checked, GivesValue, NeverRefuses, RowRead};

use crate::column_index::item_at;
use crate::reads::{given, labelled, owned_checked};
use crate::{ColumnIndex, Database, DecodeOwned, SqlType, TypeInfo, Value};
use sqlx_text::{Error, OutOfMemory};
use std::alloc::Global;

/// A row: as many values as columns. Reads that borrow from it are the functions of [`crate::reads`].
pub trait Row<DB: Database>: Sized {
    /// The columns.
    ghost described: { Self → List DB.Column };

    /// Their values.
    ghost values: { Self → List DB.Value };

    /// Whether a refused read tells the SQL type of the Rust type.
    ghost NAMES_OWN: { Bool };

    const NAMES_OWN: bool;

    /// The columns.
    fn columns(&self) -> &[DB::Column]
        ensures columns { result.now ≡ described self.now }
        ensures as_many { length (values self.now) ≡ length (described self.now) };

    /// The value of the column at a position.
    fn value(&self, at: usize) -> &DB::Value
        requires { at < length (values self.now) }
        ensures { slice_get (values self.now) at ≡ Some result.now };

    /// How many columns there are.
    final fn len(&self) -> usize
        ensures columns { result ≡ length (described self.now) }
        ensures values { result ≡ length (values self.now) }
    {
        self.columns().len()
    }

    /// Whether there is no column.
    final fn is_empty(&self) -> bool
        ensures { result ≡ (length (described self.now) == 0) }
    {
        self.len() == 0
    }

    /// The column at an index.
    final fn try_column<I: ColumnIndex<Self> + Drop>(
        &self,
        alloc: Global,
        index: I,
    ) -> Result<&DB::Column, Error>
        ensures { Answers (λ column. column.now) Error.OutOfMemory (at_place (described self.now) (I.place index self.now)) result }
    {
        match index.index(alloc, self) {
            Ok(at) => item_at(self.columns(), at),
            Err(error) => Err(error),
        }
    }

    /// The column at an index, of which it is known that it names one.
    final fn column<I: ColumnIndex<Self> + Drop>(
        &self,
        alloc: Global,
        index: I,
    ) -> Result<&DB::Column, OutOfMemory>
        requires { IsGiven (at_place (described self.now) (I.place index self.now)) }
        ensures { IfOk result (λ column. at_place (described self.now) (I.place index self.now) ≡ Ok column.now) }
    {
        match self.try_column(alloc, index) {
            Ok(column) => Ok(column),
            Err(error) => {
                drop(error);
                Err(OutOfMemory)
            }
        }
    }

    /// The value at an index.
    final fn try_get_raw<I: ColumnIndex<Self> + Drop>(
        &self,
        alloc: Global,
        index: I,
    ) -> Result<&DB::Value, Error>
        ensures { Answers (λ value. value.now) Error.OutOfMemory (at_place (values self.now) (I.place index self.now)) result }
    {
        match index.index(alloc, self) {
            Ok(at) => {
                let len = self.len();
                if at < len {
                    Ok(self.value(at))
                } else {
                    Err(Error::ColumnIndexOutOfBounds { index: at, len })
                }
            }
            Err(error) => Err(error),
        }
    }

    /// Reads the value at an index, whose type has to fit.
    ///
    /// An error is the index's refusal, `ColumnDecode` with the index's label, or want of memory.
    final fn try_get<T: DecodeOwned<DB> + SqlType<DB>, I: ColumnIndex<Self> + Drop>(
        &self,
        alloc: Global,
        index: I,
    ) -> Result<T, Error>
        ensures { RowRead values I.place I.shown self.now index (Checked DB.Value.null DB.Value.type_of DB.TypeInfo.null_type DB.TypeInfo.named NAMES_OWN T.called T.own_type T.reads_type T.reads) result }
    {
        match self.try_get_raw(alloc, &index) {
            Ok(value) => labelled::<Self, I, T>(
                alloc,
                &index,
                owned_checked::<DB, T>(alloc, value, Self::NAMES_OWN),
            ),
            Err(error) => Err(error),
        }
    }

    /// Reads the value at an index, whatever its type.
    final fn try_get_unchecked<T: DecodeOwned<DB>, I: ColumnIndex<Self> + Drop>(
        &self,
        alloc: Global,
        index: I,
    ) -> Result<T, Error>
        ensures { RowRead values I.place I.shown self.now index T.reads result }
    {
        match self.try_get_raw(alloc, &index) {
            Ok(value) => { labelled::<Self, I, T>(alloc, &index, T::decode_owned(alloc, value)) }
            Err(error) => Err(error),
        }
    }

    /// Reads the value at an index, of which it is known that it can be read.
    final fn get<T: DecodeOwned<DB> + SqlType<DB>, I: ColumnIndex<Self> + Drop>(
        &self,
        alloc: Global,
        index: I,
    ) -> Result<T, OutOfMemory>
        requires { NeverRefuses (RowRead values I.place I.shown self.now index (Checked DB.Value.null DB.Value.type_of DB.TypeInfo.null_type DB.TypeInfo.named NAMES_OWN T.called T.own_type T.reads_type T.reads)) }
        ensures { GivesValue (RowRead values I.place I.shown self.now index (Checked DB.Value.null DB.Value.type_of DB.TypeInfo.null_type DB.TypeInfo.named NAMES_OWN T.called T.own_type T.reads_type T.reads)) result }
    {
        given(self.try_get::<T, I>(alloc, index))
    }

    /// Reads the value at an index, whatever its type, of which it is known that it can be read.
    final fn get_unchecked<T: DecodeOwned<DB>, I: ColumnIndex<Self> + Drop>(
        &self,
        alloc: Global,
        index: I,
    ) -> Result<T, OutOfMemory>
        requires { NeverRefuses (RowRead values I.place I.shown self.now index T.reads) }
        ensures { GivesValue (RowRead values I.place I.shown self.now index T.reads) result }
    {
        given(self.try_get_unchecked::<T, I>(alloc, index))
    }
}
