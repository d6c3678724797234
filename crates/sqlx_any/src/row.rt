//! A row of values.
ghost use Rattle.std.specs.Prelude.{◌≡◌, ◌==◌, ◌↔◌, IfErr, IfOk, IsOk, Ok, codes, false, length, true};
ghost use Rattle.sqlx_traits.specs.Places.{IsGiven, at_place};
ghost use Rattle.sqlx_traits.specs.Reads.{Answers, GivesValue, NeverRefuses, RowRead};
ghost use Rattle.sqlx_any.specs.Rows.{Fits};

use crate::{Any, AnyColumn, AnyConnectionBackend, AnyRead, AnyValue, ColumnNames};
use sqlx_text::{Error, OutOfMemory, UStr};
use sqlx_traits::reads::{given, labelled};
use sqlx_traits::{
    ColumnIndex, Row, index_of_name, index_of_position, item_at, label_of_name, label_of_position,
};
use std::alloc::Global;
use std::marker::Model;

/// A row: as many values as columns, and the names by which the columns are found.
pub struct AnyRow {
    names: ColumnNames,
    columns: Vec<AnyColumn>,
    values: Vec<AnyValue>,
}

impl Drop for AnyRow {
    fn drop(self) {
        let AnyRow {
            names,
            columns,
            values,
        } = self;
        drop(names);
        drop(columns);
        drop(values);
    }
}

impl Model for AnyRow {
    ghost use Rattle.std.specs.Prelude.{length};
    ghost use Rattle.sqlx_any.specs.Rows.{Fits, RowParts};

    ghost Value = { RowParts };

    ghost view = { λ row. record { names = row.names; columns = row.columns.items; values = row.values.items } };

    ghost invariant = { λ row. Fits row.names (length row.columns.items) (length row.values.items) };
}

impl AnyRow {
    /// A row of these columns and values, and `InvalidArgument` exactly where these aren't as many or a name has a position past them.
    pub fn new(
        names: ColumnNames,
        columns: Vec<AnyColumn>,
        values: Vec<AnyValue>,
    ) -> Result<AnyRow, Error>
        ensures fits { IsOk result ↔ Fits names (length columns.items) (length values.items) }
        ensures ok { IfOk result (λ row. row ≡ record { names = names; columns = columns.items; values = values.items }) }
        ensures err { IfErr result (λ e. e ≡ Error.InvalidArgument (codes "a row has one value for each column, and names none past them")) }
    {
        if values.len() == columns.len() && names.are_below(columns.len()) {
            return Ok(AnyRow::of(names, columns, values));
        }
        drop(names);
        drop(columns);
        drop(values);
        Err(Error::InvalidArgument(UStr::from_static(
            "a row has one value for each column, and names none past them",
        )))
    }

    /// A row of which it is known that its parts fit.
    pub(crate) fn of(names: ColumnNames, columns: Vec<AnyColumn>, values: Vec<AnyValue>) -> AnyRow
        requires { Fits names (length columns.items) (length values.items) }
        ensures { result ≡ record { names = names; columns = columns.items; values = values.items } }
    {
        AnyRow {
            names,
            columns,
            values,
        }
    }

    /// The same row. In sqlx: `clone`.
    pub fn try_clone(&self, alloc: Global) -> Result<AnyRow, OutOfMemory>
        ensures { IfOk result (λ copy. copy ≡ self.now) }
    {
        let names = self.names.try_clone(alloc)?;
        let columns = copy_of_columns(alloc, self.columns.as_slice())?;
        let values = copy_of_values(alloc, self.values.as_slice())?;
        Ok(AnyRow {
            names,
            columns,
            values,
        })
    }
}

/// The same columns.
pub(crate) fn copy_of_columns(
    alloc: Global,
    columns: &[AnyColumn],
) -> Result<Vec<AnyColumn>, OutOfMemory>
    ensures { IfOk result (λ copy. copy.items ≡ columns.now) }
{
    let mut copy = Vec::new(alloc);
    for column in columns {
        copy.push(column.try_clone(alloc)?)?;
    }
    Ok(copy)
}

fn copy_of_values(alloc: Global, values: &[AnyValue]) -> Result<Vec<AnyValue>, OutOfMemory>
    ensures { IfOk result (λ copy. copy.items ≡ values.now) }
{
    let mut copy = Vec::new(alloc);
    for value in values {
        copy.push(value.try_clone(alloc)?)?;
    }
    Ok(copy)
}

impl AnyRow {
    /// How many columns there are.
    pub fn len(&self) -> usize
        ensures columns { result ≡ length self.now.columns }
        ensures values { result ≡ length self.now.values }
    {
        self.columns.len()
    }

    /// Whether there is no column.
    pub fn is_empty(&self) -> bool
        ensures { result ≡ (length self.now.columns == 0) }
    {
        self.columns.len() == 0
    }

    /// The columns.
    pub fn columns(&self) -> &[AnyColumn]
        ensures { result.now ≡ self.now.columns }
    {
        self.columns.as_slice()
    }

    /// The column at an index.
    pub fn try_column<I: ColumnIndex<AnyRow> + Drop>(
        &self,
        alloc: Global,
        index: I,
    ) -> Result<&AnyColumn, Error>
        ensures { Answers (λ column. column.now) Error.OutOfMemory (at_place self.now.columns (I.place index self.now)) result }
    {
        match index.index(alloc, self) {
            Ok(at) => item_at(self.columns.as_slice(), at),
            Err(error) => Err(error),
        }
    }

    /// The column at an index, of which it is known that it names one.
    pub fn column<I: ColumnIndex<AnyRow> + Drop>(
        &self,
        alloc: Global,
        index: I,
    ) -> Result<&AnyColumn, OutOfMemory>
        requires { IsGiven (at_place self.now.columns (I.place index self.now)) }
        ensures { IfOk result (λ column. at_place self.now.columns (I.place index self.now) ≡ Ok column.now) }
    {
        match self.try_column(alloc, index) {
            Ok(column) => Ok(column),
            Err(error) => {
                drop(error);
                Err(OutOfMemory)
            }
        }
    }

    /// The value at an index.
    pub fn try_get_raw<I: ColumnIndex<AnyRow> + Drop>(
        &self,
        alloc: Global,
        index: I,
    ) -> Result<&AnyValue, Error>
        ensures { Answers (λ value. value.now) Error.OutOfMemory (at_place self.now.values (I.place index self.now)) result }
    {
        match index.index(alloc, self) {
            Ok(at) => item_at(self.values.as_slice(), at),
            Err(error) => Err(error),
        }
    }

    /// Reads the value at an index, whose kind has to fit.
    ///
    /// An error is the index's refusal, `ColumnDecode` with the index's label, or want of memory.
    pub fn try_get<'r, T: AnyRead<'r>, I: ColumnIndex<AnyRow> + Drop>(
        &'r self,
        alloc: Global,
        index: I,
    ) -> Result<T, Error>
        ensures { RowRead (λ row. row.values) I.place I.shown self.entry.now index (T.reads true true) result }
    {
        self.read(alloc, index, true)
    }

    /// Reads the value at an index, whatever its kind.
    pub fn try_get_unchecked<'r, T: AnyRead<'r>, I: ColumnIndex<AnyRow> + Drop>(
        &'r self,
        alloc: Global,
        index: I,
    ) -> Result<T, Error>
        ensures { RowRead (λ row. row.values) I.place I.shown self.entry.now index (T.reads false true) result }
    {
        self.read(alloc, index, false)
    }

    /// Reads the value at an index, of which it is known that it can be read.
    pub fn get<'r, T: AnyRead<'r>, I: ColumnIndex<AnyRow> + Drop>(
        &'r self,
        alloc: Global,
        index: I,
    ) -> Result<T, OutOfMemory>
        requires { NeverRefuses (RowRead (λ row. row.values) I.place I.shown self.now index (T.reads true true)) }
        ensures { GivesValue (RowRead (λ row. row.values) I.place I.shown self.entry.now index (T.reads true true)) result }
    {
        given(self.read::<T, I>(alloc, index, true))
    }

    /// Reads the value at an index, whatever its kind, of which it is known that it can be read.
    pub fn get_unchecked<'r, T: AnyRead<'r>, I: ColumnIndex<AnyRow> + Drop>(
        &'r self,
        alloc: Global,
        index: I,
    ) -> Result<T, OutOfMemory>
        requires { NeverRefuses (RowRead (λ row. row.values) I.place I.shown self.now index (T.reads false true)) }
        ensures { GivesValue (RowRead (λ row. row.values) I.place I.shown self.entry.now index (T.reads false true)) result }
    {
        given(self.read::<T, I>(alloc, index, false))
    }

    // Reads the value at an index, whose kind has to fit where `checked`.
    fn read<'r, T: AnyRead<'r>, I: ColumnIndex<AnyRow> + Drop>(
        &'r self,
        alloc: Global,
        index: I,
        checked: bool,
    ) -> Result<T, Error>
        ensures { RowRead (λ row. row.values) I.place I.shown self.entry.now index (T.reads checked true) result }
    {
        match self.try_get_raw(alloc, &index) {
            Ok(value) => {
                labelled::<AnyRow, I, T>(alloc, &index, T::read(alloc, value, checked, true))
            }
            Err(error) => Err(error),
        }
    }
}

impl<B: AnyConnectionBackend> Row<Any<B>> for AnyRow {
    ghost use Rattle.std.specs.Prelude.{false};

    ghost described = { λ row. row.columns };

    ghost values = { λ row. row.values };

    ghost NAMES_OWN = { false };

    const NAMES_OWN: bool = false;

    fn columns(&self) -> &[AnyColumn] {
        self.columns.as_slice()
    }

    fn value(&self, at: usize) -> &AnyValue {
        &self.values[at]
    }
}

impl ColumnIndex<AnyRow> for usize {
    ghost use Rattle.std.specs.Prelude.{decimal, length};
    ghost use Rattle.sqlx_traits.specs.Places.{place_of_position};

    ghost place = { λ at row. place_of_position at (length row.columns) };

    ghost shown = { λ at. decimal at };

    fn index(&self, _alloc: Global, row: &AnyRow) -> Result<usize, Error> {
        index_of_position(*self, row.columns.len())
    }

    fn label(&self, alloc: Global) -> Result<UStr, OutOfMemory> {
        label_of_position(alloc, *self)
    }
}

impl ColumnIndex<AnyRow> for &str {
    ghost use Rattle.sqlx_traits.specs.Places.{in_quotes, place_of_name};
    ghost use Rattle.sqlx_any_values.specs.Names.{position_of};

    ghost place = { λ name row. place_of_name (position_of name.now row.names) name.now };

    ghost shown = { λ name. in_quotes name.now };

    fn index(&self, alloc: Global, row: &AnyRow) -> Result<usize, Error> {
        index_of_name(alloc, row.names.get(*self), *self)
    }

    fn label(&self, alloc: Global) -> Result<UStr, OutOfMemory> {
        label_of_name(alloc, *self)
    }
}
