//! The rows of a statement, handed out one by one.
ghost use Rattle.std.specs.Prelude.{◌≡◌};
ghost use Rattle.sqlx_text.specs.declared.error.Error.{Error};
ghost use Rattle.sqlx_traits.specs.Reads.{Answers};
ghost use Rattle.sqlx_traits.specs.StepList.{all_of, first_of, rows_of};

use crate::{Database, StepList};
use either::Either;
use sqlx_text::Error;
use std::alloc::Global;
use std::marker::Model;

/// The rows of a step list that are still to be handed out, and behind them its error if there is one.
pub struct RowList<Q, R> {
    list: StepList<Q, R>,
}

impl<Q: Drop, R: Drop> Drop for RowList<Q, R> {
    fn drop(self) {
        let RowList { list } = self;
        drop(list);
    }
}

impl<Q, R> Model for RowList<Q, R> {
    ghost use Rattle.std.specs.Prelude.{List, Result};
    ghost use Rattle.sqlx_text.specs.declared.error.Error.{Error};
    ghost use Rattle.sqlx_traits.specs.StepList.{rows_of};

    ghost Value = { List (Result R Error) };

    ghost view = { λ rows. rows_of rows.list };
}

/// What [`crate::Executor::fetch`] gives.
pub type Fetch<DB> = RowList<<DB as Database>::QueryResult, <DB as Database>::Row>;

impl<Q: Drop, R> RowList<Q, R> {
    /// The rows of a step list.
    pub fn new(list: StepList<Q, R>) -> Self
        ensures { result ≡ rows_of list }
    {
        RowList { list }
    }
}

impl<Q: Drop, R: Drop> Iterator for RowList<Q, R> {
    type Item = Result<R, Error>;

    ghost use Rattle.std.specs.Iterator.{YieldsFirst, item_count};

    ghost next_gives = { YieldsFirst (λ items. items) };

    ghost remaining = { item_count (λ items. items) };

    /// The next row, or the error behind them, and `None` at the end.
    fn next(&mut self) -> Option<Result<R, Error>> {
        while let Some(item) = self.list.next() {
            match item {
                Ok(Either::Left(result)) => drop(result),
                Ok(Either::Right(row)) => return Some(Ok(row)),
                Err(error) => return Some(Err(error)),
            }
        }
        None
    }
}

// The first row or error, if there is one.
pub(crate) fn first<Q: Drop, R: Drop>(rows: RowList<Q, R>) -> Result<Option<R>, Error>
    ensures { result ≡ first_of rows }
{
    let mut rows = rows;
    let item = rows.next();
    drop(rows);
    match item {
        Some(Ok(row)) => Ok(Some(row)),
        Some(Err(error)) => Err(error),
        None => Ok(None),
    }
}

// All rows, or the first error.
pub(crate) fn all<Q: Drop, R: Drop>(alloc: Global, rows: RowList<Q, R>) -> Result<Vec<R>, Error>
    ensures { Answers (λ rows. rows.items) Error.OutOfMemory (all_of rows) result }
{
    let mut rows = rows;
    let mut all = Vec::new(alloc);
    while let Some(item) = rows.next() {
        match item {
            Ok(row) => {
                if all.push(row).is_err() {
                    drop(rows);
                    drop(all);
                    return Err(Error::OutOfMemory);
                }
            }
            Err(error) => {
                drop(rows);
                drop(all);
                return Err(error);
            }
        }
    }
    Ok(all)
}
