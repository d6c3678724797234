//! The queries by which a connection is asked, over any database.

use sqlx_any::*;
use sqlx_query::{query, query_as, query_scalar, raw_sql};
use sqlx_query_rows::FromColumn;
use sqlx_text::{AssertSqlSafe, Error, OutOfMemory, SqlSafeStr, SqlStr};
use std::alloc::Global;
use tests_database::steps::{Call, gives};

// Writes a key's value.
const PUT: &str = "INSERT INTO kv(k, v) VALUES (?, ?) ON CONFLICT(k) DO UPDATE SET v = excluded.v";

// Reads a key.
const GET: &str = "SELECT v FROM kv WHERE k = ?";

// A text of the tests, which injects nothing.
fn safe(alloc: Global, text: &str) -> Result<SqlStr, OutOfMemory> {
    AssertSqlSafe(text).into_sql_str(alloc)
}

/// How many rows a text without arguments wrote.
pub fn runs<DB: Database<QueryResult = AnyQueryResult>, E: Executor<DB>>(
    alloc: Global,
    conn: &mut E,
    text: &str,
) -> Result<u64, Error> {
    let sql = safe(alloc, text)?;
    let raw = raw_sql::<SqlStr>(alloc, sql)?;
    written(raw.execute::<DB, E>(alloc, conn))
}

// How many rows were written.
fn written(answer: Result<AnyQueryResult, Error>) -> Result<u64, Error> {
    match answer {
        Ok(told) => Ok(told.rows_affected),
        Err(error) => Err(error),
    }
}

/// Writes a key's value, both bound: how many rows it wrote.
pub fn puts<'t, DB: Database<QueryResult = AnyQueryResult>, E: Executor<DB>>(
    alloc: Global,
    conn: &mut E,
    key: i64,
    value: i64,
) -> Result<u64, Error>
where
    DB::Arguments: IntoArguments<DB>,
    i64: Encode<'t, DB> + SqlType<DB>,
{
    let query = query::<DB, &'static str>(alloc, PUT)?;
    let bound = query.bind(alloc, key).bind(alloc, value);
    written(bound.execute(alloc, conn))
}

/// The value of a bound key, if it is there.
pub fn gets<'t, DB: Database, E: Executor<DB>>(
    alloc: Global,
    conn: &mut E,
    key: i64,
) -> Result<Option<i64>, Error>
where
    DB::Arguments: IntoArguments<DB>,
    i64: Encode<'t, DB> + SqlType<DB> + FromColumn<DB>,
{
    let query = query_scalar::<DB, i64, &'static str>(alloc, GET)?;
    query.bind(alloc, key).fetch_optional(alloc, conn)
}

/// Reads a bound key that has to be there: how many columns the row has.
pub fn gets_one<'t, DB: Database, E: Executor<DB>>(
    alloc: Global,
    conn: &mut E,
    key: i64,
) -> Result<usize, Error>
where
    DB::Arguments: IntoArguments<DB>,
    i64: Encode<'t, DB> + SqlType<DB>,
{
    let query = query::<DB, &'static str>(alloc, GET)?;
    columns_of::<DB>(query.bind(alloc, key).fetch_one(alloc, conn))
}

// How many columns a row has.
fn columns_of<DB: Database>(row: Result<DB::Row, Error>) -> Result<usize, Error> {
    match row {
        Ok(row) => {
            let columns = row.len();
            drop(row);
            Ok(columns)
        }
        Err(error) => Err(error),
    }
}

/// The whole numbers of a column, row by row.
pub fn numbers<DB: Database, E: Executor<DB>>(
    alloc: Global,
    conn: &mut E,
    text: &str,
    at: usize,
) -> Result<Vec<i64>, Error>
where
    i64: DecodeOwned<DB> + SqlType<DB>,
    usize: ColumnIndex<DB::Row>,
{
    let rows = conn.fetch_all(alloc, safe(alloc, text)?)?;
    let numbers = column_of::<DB>(alloc, rows.as_slice(), at);
    drop(rows);
    numbers
}

fn column_of<DB: Database>(alloc: Global, rows: &[DB::Row], at: usize) -> Result<Vec<i64>, Error>
where
    i64: DecodeOwned<DB> + SqlType<DB>,
    usize: ColumnIndex<DB::Row>,
{
    let mut numbers = Vec::new(alloc);
    for row in rows {
        let number = row.try_get::<i64, usize>(alloc, at)?;
        keep(&mut numbers, number)?;
    }
    Ok(numbers)
}

fn keep(numbers: &mut Vec<i64>, number: i64) -> Result<(), OutOfMemory> {
    Ok(numbers.push(number)?)
}

/// The whole number in the first column of the first row, if there is one.
pub fn first<DB: Database, E: Executor<DB>>(
    alloc: Global,
    conn: &mut E,
    text: &str,
) -> Result<Option<i64>, Error>
where
    i64: DecodeOwned<DB> + SqlType<DB>,
    usize: ColumnIndex<DB::Row>,
{
    match conn.fetch_optional(alloc, safe(alloc, text)?)? {
        Some(row) => {
            let number = row.try_get::<i64, usize>(alloc, 0);
            drop(row);
            Ok(Some(number?))
        }
        None => Ok(None),
    }
}

/// The rows of `SELECT`, each as a tuple of one whole number.
pub fn tuples<DB: Database, E: Executor<DB>>(
    alloc: Global,
    conn: &mut E,
) -> Result<Vec<(i64,)>, Error>
where
    DB::Arguments: IntoArguments<DB>,
    i64: FromColumn<DB>,
{
    let query = query_as::<DB, (i64,), _>(alloc, "SELECT")?;
    query.fetch_all(alloc, conn)
}

/// The steps of `UPDATE` with the bound text `x`, by a statement that isn't kept: a bar behind each.
pub fn steps<'t, DB, E>(alloc: Global, conn: &mut E) -> Result<String, OutOfMemory>
where
    DB: Database<QueryResult = AnyQueryResult> + HasStatementCache,
    E: Executor<DB>,
    DB::Arguments: IntoArguments<DB>,
    &'t str: Encode<'t, DB> + SqlType<DB>,
{
    let query = query::<DB, _>(alloc, "UPDATE")?;
    let bound = query.bind(alloc, "x").persistent(false);
    gives::<DB, E, _>(alloc, Call::FetchMany, conn, bound)
}

/// How many columns the rows of a text have that is prepared.
pub fn prepares<DB: Database, E: Executor<DB>>(
    alloc: Global,
    conn: &mut E,
    text: &str,
) -> Result<usize, Error> {
    let statement = conn.prepare(alloc, safe(alloc, text)?)?;
    let columns = statement.columns().len();
    drop(statement);
    Ok(columns)
}

/// Begins a level by a text of one's own.
pub fn begins_with<DB: Database>(
    alloc: Global,
    conn: &mut DB::Connection,
    text: &str,
) -> Result<(), Error> {
    let sql = safe(alloc, text)?;
    DB::TransactionManager::begin(alloc, conn, Some(sql))
}
