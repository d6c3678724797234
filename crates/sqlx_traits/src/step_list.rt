//! Step lists: the results and rows of a statement, handed out one by one.
ghost use Rattle.std.specs.Prelude.{◌≡◌, ◌++◌, ◌∷◌, [], Err, Ok, map};
ghost use Rattle.either.specs.declared.Either.TheVariants.{Left};
ghost use Rattle.sqlx_text.specs.Errors.{error_of};
ghost use Rattle.sqlx_traits.specs.StepList.{ended};

use crate::Database;
use either::Either;
use sqlx_text::{Error, Fault};
use std::alloc::Global;
use std::collections::VecDeque;
use std::marker::Model;

// A call in place of the cases of an error, which each function that lets a list go would repeat.
struct LastError {
    error: Error,
}

impl Drop for LastError {
    fn drop(self) {
        let LastError { error } = self;
        drop(error);
    }
}

impl LastError {
    fn into_error(self) -> Error
        ensures { result ≡ self.error }
    {
        let LastError { error } = self;
        error
    }
}

/// What is still to be handed out: results and rows, and behind them an error if there is one.
pub struct StepList<Q, R> {
    items: VecDeque<Either<Q, R>>,
    result: Option<Q>,
    last: Option<LastError>,
}

impl<Q: Drop, R: Drop> Drop for StepList<Q, R> {
    fn drop(self) {
        let StepList {
            items,
            result,
            last,
        } = self;
        drop(items);
        drop(result);
        drop(last);
    }
}

impl<Q, R> Model for StepList<Q, R> {
    ghost use Rattle.std.specs.Prelude.{◌++◌, Ok, map, option_map};
    ghost use Rattle.sqlx_text.specs.declared.error.Error.{Error};
    ghost use Rattle.sqlx_traits.specs.StepList.{Steps, ended, result_step};

    ghost Value = { Steps Q R Error };

    ghost view = { λ list. map Ok list.items.items ++ result_step list.result ++ ended (option_map (λ last. last.error) list.last) };
}

/// What [`crate::Executor::fetch_many`] gives.
pub type FetchMany<DB> = StepList<<DB as Database>::QueryResult, <DB as Database>::Row>;

impl<Q, R> StepList<Q, R> {
    /// These results and rows, and then the error if there is one.
    pub fn new(items: VecDeque<Either<Q, R>>, error: Option<Error>) -> Self
        ensures { result ≡ map Ok items.items ++ ended error }
    {
        let last = match error {
            Some(error) => Some(LastError { error }),
            None => None,
        };
        StepList {
            items,
            result: None,
            last,
        }
    }

    /// An error and nothing before it. It takes no memory.
    pub fn refused(alloc: Global, error: Error) -> Self
        ensures { result ≡ Err error ∷ [] }
    {
        StepList {
            items: VecDeque::new(alloc),
            result: None,
            last: Some(LastError { error }),
        }
    }

    /// A result and nothing else. It takes no memory.
    pub fn of_result(alloc: Global, only: Q) -> Self
        ensures { result ≡ Ok (Left only) ∷ [] }
    {
        StepList {
            items: VecDeque::new(alloc),
            result: Some(only),
            last: None,
        }
    }

    /// Why the arguments of a query can't be had, and nothing before it. Want of memory stays want of memory.
    pub fn not_encoded(alloc: Global, fault: Fault) -> Self
        ensures { result ≡ Err (error_of Error.Encode fault) ∷ [] }
    {
        match fault {
            Fault::OutOfMemory => StepList::refused(alloc, Error::OutOfMemory),
            fault => StepList::refused(alloc, Error::Encode(fault)),
        }
    }
}

impl<Q: Drop, R: Drop> Iterator for StepList<Q, R> {
    type Item = Result<Either<Q, R>, Error>;

    ghost use Rattle.std.specs.Iterator.{YieldsFirst, item_count};

    ghost next_gives = { YieldsFirst (λ steps. steps) };

    ghost remaining = { item_count (λ steps. steps) };

    /// The next result or row, or the error behind them, and `None` at the end.
    fn next(&mut self) -> Option<Result<Either<Q, R>, Error>> {
        match self.items.pop_front() {
            Some(item) => Some(Ok(item)),
            None => match self.result.take() {
                Some(result) => Some(Ok(Either::Left(result))),
                None => match self.last.take() {
                    Some(last) => Some(Err(last.into_error())),
                    None => None,
                },
            },
        }
    }
}
