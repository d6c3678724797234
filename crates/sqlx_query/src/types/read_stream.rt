//! The rows of a query, each read as it is handed out. A refusal stands in its row's place.
ghost use Rattle.std.specs.Prelude.{length};
ghost use Rattle.sqlx_query_rows.specs.Mapping.{ReadsAll, ReadsNext, ReadsNextStep, ReadsOne, ReadsOptional, ReadsStep};

use crate::{AsRows, AsScalars, MappedRowList, Mapper, Reader};
use sqlx_text::Error;
use sqlx_traits::{Database, Either, Fetch, FetchMany};
use std::alloc::Global;
use std::marker::PhantomData;

/// The rows that are still to be read and handed out.
#[derive(Drop)]
pub struct ReadStream<DB: Database, M> {
    pub(crate) alloc: Global,
    pub(crate) rows: Fetch<DB>,
    pub(crate) by: PhantomData<M>,
}

/// What `QueryAs::fetch` gives.
pub type QueryAsStream<DB, O> = ReadStream<DB, AsRows<O>>;

/// What `QueryScalar::fetch` gives.
pub type QueryScalarStream<DB, O> = ReadStream<DB, AsScalars<O>>;

/// Hands out what the next row is read as, or why it can't be, or the error behind the rows.
impl<DB: Database, M: Reader<DB>> Iterator for ReadStream<DB, M> {
    type Item = Result<M::Out, Error>;

    ghost use Rattle.std.specs.Iterator.{at_most};

    ghost next_gives = { λ s answer t. ReadsNext M.reads s.rows answer t.rows };

    ghost remaining = { λ s. at_most (length s.rows) };

    fn next(&mut self) -> Option<Result<M::Out, Error>> {
        match self.rows.next() {
            Some(row) => Some(read_one::<DB, M>(self.alloc, row)),
            None => None,
        }
    }

    fn size_hint(&self) -> (usize, Option<usize>) {
        (0, None)
    }
}

/// The results and the rows that are still to be handed out.
#[derive(Drop)]
pub struct ReadManyStream<DB: Database, M> {
    pub(crate) alloc: Global,
    pub(crate) list: FetchMany<DB>,
    pub(crate) by: PhantomData<M>,
}

/// What `QueryAs::fetch_many` gives.
pub type QueryAsManyStream<DB, O> = ReadManyStream<DB, AsRows<O>>;

/// What `QueryScalar::fetch_many` gives.
pub type QueryScalarManyStream<DB, O> = ReadManyStream<DB, AsScalars<O>>;

/// Hands out the next result, or what the next row is read as, or an error in its place.
impl<DB: Database, M: Reader<DB>> Iterator for ReadManyStream<DB, M> {
    type Item = Result<Either<DB::QueryResult, M::Out>, Error>;

    ghost use Rattle.std.specs.Iterator.{at_most};

    ghost next_gives = { λ s answer t. ReadsNextStep M.reads s.list answer t.list };

    ghost remaining = { λ s. at_most (length s.list) };

    fn next(&mut self) -> Option<Result<Either<DB::QueryResult, M::Out>, Error>> {
        match self.list.next() {
            Some(step) => Some(read_step::<DB, M>(self.alloc, step)),
            None => None,
        }
    }

    fn size_hint(&self) -> (usize, Option<usize>) {
        (0, None)
    }
}

// What a row is read as.
fn read_row<DB: Database, M: Reader<DB>>(alloc: Global, row: DB::Row) -> Result<M::Out, Error>
    ensures { M.reads row result }
{
    let read = M::read(alloc, &row);
    drop(row);
    read
}

// A row that is read, or the error in its place.
pub(crate) fn read_one<DB: Database, M: Reader<DB>>(
    alloc: Global,
    row: Result<DB::Row, Error>,
) -> Result<M::Out, Error>
    ensures { ReadsOne M.reads row result }
{
    match row {
        Ok(row) => read_row::<DB, M>(alloc, row),
        Err(error) => Err(error),
    }
}

// A row that is read if it is there, or the error in its place.
pub(crate) fn read_optional<DB: Database, M: Reader<DB>>(
    alloc: Global,
    row: Result<Option<DB::Row>, Error>,
) -> Result<Option<M::Out>, Error>
    ensures { ReadsOptional M.reads row result }
{
    match row {
        Ok(Some(row)) => match read_row::<DB, M>(alloc, row) {
            Ok(read) => Ok(Some(read)),
            Err(error) => Err(error),
        },
        Ok(None) => Ok(None),
        Err(error) => Err(error),
    }
}

// All rows, each read, or the first error or refusal, or want of memory.
pub(crate) fn read_all<DB: Database, M: Reader<DB>>(
    alloc: Global,
    rows: Fetch<DB>,
) -> Result<Vec<M::Out>, Error>
    ensures { ReadsAll (λ all. all.items) M.reads rows result }
{
    let mapper: ReadEach<DB, M> = ReadEach {
        alloc,
        by: PhantomData,
    };
    MappedRowList::new(alloc, rows, mapper).all_rows()
}

// A step of which the row is read.
fn read_step<DB: Database, M: Reader<DB>>(
    alloc: Global,
    step: Result<Either<DB::QueryResult, DB::Row>, Error>,
) -> Result<Either<DB::QueryResult, M::Out>, Error>
    ensures { ReadsStep M.reads step result }
{
    match step {
        Ok(Either::Right(row)) => match read_row::<DB, M>(alloc, row) {
            Ok(read) => Ok(Either::Right(read)),
            Err(error) => Err(error),
        },
        Ok(Either::Left(result)) => Ok(Either::Left(result)),
        Err(error) => Err(error),
    }
}

// What reads each row, as a mapper.
#[derive(Drop)]
struct ReadEach<DB, M> {
    alloc: Global,
    by: PhantomData<(DB, M)>,
}

impl<DB: Database, M: Reader<DB>> Mapper<DB::Row> for ReadEach<DB, M> {
    ghost use Rattle.std.specs.Prelude.{⊤};

    type Out = M::Out;

    ghost maps = { λ before row answer now. M.reads row answer };

    ghost ready = { λ _. ⊤ };

    fn call(&mut self, row: DB::Row) -> Result<M::Out, Error> {
        read_row::<DB, M>(self.alloc, row)
    }
}
