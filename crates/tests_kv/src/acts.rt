//! What a connection is asked, and its answers as a line.

use crate::calls::*;
use crate::shown::shown;
use sqlx_any::*;
use sqlx_query_rows::FromColumn;
use sqlx_text::{Depth, Error, OutOfMemory};
use std::alloc::Global;
use tests_database::steps::put;

/// What a connection is asked.
#[derive(Clone, Copy)]
pub enum Act<'s> {
    /// How many rows a text without arguments wrote.
    Run(&'s str),
    /// Writes a key's value, both bound: how many rows it wrote.
    Put(i64, i64),
    /// The value of a bound key, if it is there.
    Get(i64),
    /// Reads a bound key that has to be there: how many columns the row has.
    GetOne(i64),
    /// The whole numbers of a column, row by row.
    Numbers(&'s str, usize),
    /// The whole number in the first column of the first row, if there is one.
    First(&'s str),
    /// The rows of `SELECT`, each as a tuple of one whole number.
    Tuples,
    /// The steps of `UPDATE` with the bound text `x`, by a statement that isn't kept.
    Steps,
    /// How many columns the rows of a text have that is prepared.
    Prepare(&'s str),
    /// How many statements are cached.
    Cached,
    /// How many levels are open.
    Depth,
    /// Begins a level.
    Begin,
    /// Begins a level by a text of one's own.
    BeginWith(&'s str),
    /// Rolls the newest level back.
    Rollback,
    /// Begins to roll the newest level back.
    StartRollback,
    /// Asks for a sign of life.
    Ping,
}

/// What the connection answers to each act in turn, a bar behind each; a refusal is told by its text.
pub fn answers<B: AnyConnectionBackend>(
    alloc: Global,
    conn: &mut AnyConnection<B>,
    acts: &[Act],
) -> Result<String, OutOfMemory> {
    answers_of::<Any<B>>(alloc, conn, acts)
}

// The same at any database that takes and reads whole numbers, so that what these stand on is looked up once.
fn answers_of<'t, DB: Database<QueryResult = AnyQueryResult> + HasStatementCache>(
    alloc: Global,
    conn: &mut DB::Connection,
    acts: &[Act],
) -> Result<String, OutOfMemory>
where
    DB::Connection: Executor<DB>,
    DB::Arguments: IntoArguments<DB>,
    i64: Encode<'t, DB> + SqlType<DB> + DecodeOwned<DB> + FromColumn<DB>,
    &'t str: Encode<'t, DB> + SqlType<DB>,
    usize: ColumnIndex<DB::Row>,
{
    let mut line = String::new(alloc);
    for act in acts {
        put(&mut line, queried::<DB>(alloc, conn, *act)?)?;
    }
    Ok(line)
}

// The answer to a query.
fn queried<'t, DB: Database<QueryResult = AnyQueryResult> + HasStatementCache>(
    alloc: Global,
    conn: &mut DB::Connection,
    act: Act,
) -> Result<String, OutOfMemory>
where
    DB::Connection: Executor<DB>,
    DB::Arguments: IntoArguments<DB>,
    i64: Encode<'t, DB> + SqlType<DB> + DecodeOwned<DB> + FromColumn<DB>,
    &'t str: Encode<'t, DB> + SqlType<DB>,
    usize: ColumnIndex<DB::Row>,
{
    match act {
        Act::Run(text) => shown(alloc, runs::<DB, _>(alloc, conn, text)),
        Act::Put(key, value) => shown(alloc, puts::<DB, _>(alloc, conn, key, value)),
        Act::Get(key) => shown(alloc, gets::<DB, _>(alloc, conn, key)),
        Act::GetOne(key) => shown(alloc, gets_one::<DB, _>(alloc, conn, key)),
        Act::Numbers(text, at) => shown(alloc, numbers::<DB, _>(alloc, conn, text, at)),
        Act::First(text) => shown(alloc, first::<DB, _>(alloc, conn, text)),
        Act::Tuples => shown(alloc, tuples::<DB, _>(alloc, conn)),
        Act::Steps => steps::<DB, _>(alloc, conn),
        Act::Prepare(text) => shown(alloc, prepares::<DB, _>(alloc, conn, text)),
        Act::Cached => shown(alloc, Ok(conn.cached_statements_size())),
        Act::Depth => shown(alloc, Ok(conn.depth())),
        act => shown(alloc, called::<DB>(alloc, conn, act)),
    }
}

// A call besides queries.
fn called<DB: Database>(alloc: Global, conn: &mut DB::Connection, act: Act) -> Result<(), Error> {
    match act {
        Act::Begin => DB::TransactionManager::begin(alloc, conn, None),
        Act::BeginWith(text) => begins_with::<DB>(alloc, conn, text),
        Act::Ping => conn.ping(),
        act => ended::<DB>(alloc, conn, act),
    }
}

// Ends the newest level, and is refused where none is open.
fn ended<DB: Database>(alloc: Global, conn: &mut DB::Connection, act: Act) -> Result<(), Error> {
    if DB::TransactionManager::get_transaction_depth(conn) == 0 {
        return Err(Error::NotHeld);
    }
    match act {
        Act::Rollback => DB::TransactionManager::rollback(alloc, conn),
        _ => {
            DB::TransactionManager::start_rollback(conn);
            Ok(())
        }
    }
}
