//! What an executor's calls give, as a text: a row by the name of its first column, a result as `Debug` writes it.
ghost use Rattle.std.specs.Iterator.{IsFinite};

use crate::answers::{ByDebug, Tell, told};
use sqlx_text::{Error, OutOfMemory};
use sqlx_traits::*;
use std::alloc::Global;
use std::fmt::Debug;
use std::marker::PhantomData;

/// A call that runs a query.
#[derive(Clone, Copy)]
pub enum Call {
    Execute,
    ExecuteMany,
    Fetch,
    FetchMany,
    FetchAll,
    FetchOptional,
    FetchOne,
}

/// A row by the name of its first column.
pub struct Named<DB>(PhantomData<DB>);

impl<DB: Database> Tell<DB::Row> for Named<DB> {
    fn tell(alloc: Global, row: DB::Row) -> Result<String, OutOfMemory> {
        let name = match row.columns().first() {
            Some(column) => column.name().to_string(alloc),
            None => "no column".to_string(alloc),
        };
        drop(row);
        Ok(name?)
    }
}

/// A value that may be missing, in its way or as `none`.
pub struct Maybe<S>(PhantomData<S>);

impl<T, S: Tell<T>> Tell<Option<T>> for Maybe<S> {
    fn tell(alloc: Global, value: Option<T>) -> Result<String, OutOfMemory> {
        match value {
            Some(value) => S::tell(alloc, value),
            None => Ok("none".to_string(alloc)?),
        }
    }
}

/// Values in their way, a bar behind each.
pub struct All<S>(PhantomData<S>);

impl<T: Drop, S: Tell<T>> Tell<Vec<T>> for All<S> {
    fn tell(alloc: Global, values: Vec<T>) -> Result<String, OutOfMemory> {
        let mut line = String::new(alloc);
        for value in values {
            put(&mut line, S::tell(alloc, value)?)?;
        }
        Ok(line)
    }
}

/// A step: its result as `Debug` writes it, or its row in its way.
pub struct Step<S>(PhantomData<S>);

impl<Q: Debug + Drop, R, S: Tell<R>> Tell<Either<Q, R>> for Step<S> {
    fn tell(alloc: Global, step: Either<Q, R>) -> Result<String, OutOfMemory> {
        match step {
            Either::Left(result) => ByDebug::tell(alloc, result),
            Either::Right(row) => S::tell(alloc, row),
        }
    }
}

/// The items of a stream, a bar behind each.
pub fn told_each<T, S: Tell<T>, I: Iterator<Item = Result<T, Error>> + Drop>(
    alloc: Global,
    items: I,
) -> Result<String, OutOfMemory>
    requires can { I.can_next items }
    requires ends { IsFinite (I.remaining items) }
{
    let mut line = String::new(alloc);
    for item in items {
        put(&mut line, told::<T, S>(alloc, item)?)?;
    }
    Ok(line)
}

/// Puts a text and a bar behind a line.
pub fn put(line: &mut String, text: String) -> Result<(), OutOfMemory> {
    line.push_str(&text)?;
    line.push('|')?;
    Ok(())
}

/// What a call gives of a query: items are told with a bar behind each, and an error by its text.
pub fn gives<DB: Database, E: Executor<DB>, Q: Execute<DB>>(
    alloc: Global,
    call: Call,
    conn: &mut E,
    query: Q,
) -> Result<String, OutOfMemory>
where
    DB::QueryResult: Debug,
{
    match call {
        Call::Execute => told::<_, ByDebug>(alloc, conn.execute(alloc, query)),
        Call::ExecuteMany => told_each::<_, ByDebug, _>(alloc, conn.execute_many(alloc, query)),
        Call::Fetch => told_each::<_, Named<DB>, _>(alloc, conn.fetch(alloc, query)),
        Call::FetchMany => told_each::<_, Step<Named<DB>>, _>(alloc, conn.fetch_many(alloc, query)),
        Call::FetchAll => told::<_, All<Named<DB>>>(alloc, conn.fetch_all(alloc, query)),
        Call::FetchOptional => told::<_, Maybe<Named<DB>>>(
            alloc,
            conn.fetch_optional(alloc, query),
        ),
        Call::FetchOne => told::<_, Named<DB>>(alloc, conn.fetch_one(alloc, query)),
    }
}
