//! The results of statements, handed out one by one.
ghost use Rattle.std.specs.Prelude.{◌≡◌};
ghost use Rattle.sqlx_traits.specs.StepList.{combined, results_of};

use crate::{Database, QueryResult, StepList};
use either::Either;
use sqlx_text::Error;
use std::marker::Model;

/// The results of a step list that are still to be handed out, and behind them its error if there is one.
pub struct ResultList<Q, R> {
    list: StepList<Q, R>,
}

impl<Q: Drop, R: Drop> Drop for ResultList<Q, R> {
    fn drop(self) {
        let ResultList { list } = self;
        drop(list);
    }
}

impl<Q, R> Model for ResultList<Q, R> {
    ghost use Rattle.std.specs.Prelude.{List, Result};
    ghost use Rattle.sqlx_text.specs.declared.error.Error.{Error};
    ghost use Rattle.sqlx_traits.specs.StepList.{results_of};

    ghost Value = { List (Result Q Error) };

    ghost view = { λ results. results_of results.list };
}

/// What [`crate::Executor::execute_many`] gives.
pub type ExecuteMany<DB> = ResultList<<DB as Database>::QueryResult, <DB as Database>::Row>;

impl<Q, R: Drop> ResultList<Q, R> {
    /// The results of a step list.
    pub fn new(list: StepList<Q, R>) -> Self
        ensures { result ≡ results_of list }
    {
        ResultList { list }
    }
}

impl<Q: Drop, R: Drop> Iterator for ResultList<Q, R> {
    type Item = Result<Q, Error>;

    ghost use Rattle.std.specs.Iterator.{YieldsFirst, item_count};

    ghost next_gives = { YieldsFirst (λ items. items) };

    ghost remaining = { item_count (λ items. items) };

    /// The next result, or the error behind them, and `None` at the end.
    fn next(&mut self) -> Option<Result<Q, Error>> {
        while let Some(item) = self.list.next() {
            match item {
                Ok(Either::Left(result)) => return Some(Ok(result)),
                Ok(Either::Right(row)) => drop(row),
                Err(error) => return Some(Err(error)),
            }
        }
        None
    }
}

// The results as one, or the first error.
pub(crate) fn combine<Q: QueryResult + Drop, R: Drop>(results: ResultList<Q, R>) -> Result<Q, Error>
    ensures { result ≡ combined Q.extended Q.nothing results }
{
    let mut results = results;
    let mut all = Q::empty();
    while let Some(item) = results.next() {
        match item {
            Ok(next) => all.extend(next),
            Err(error) => {
                drop(results);
                drop(all);
                return Err(error);
            }
        }
    }
    Ok(all)
}
