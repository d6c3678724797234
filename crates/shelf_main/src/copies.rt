//! Copies of books, by number, over any database with a table of whole numbers.

use crate::opening::{closed, opened};
use crate::shelf::runs;
use sqlx_any::{Any, AnyOpen, Database, Encode, Executor, IntoArguments, SqlType};
use sqlx_query::{query, query_as};
use sqlx_query_rows::FromRow;
use sqlx_text::Error;
use std::alloc::Global;

/// A book's number, and how many copies of it there are.
pub type Copies = (i64, i64);

/// The counts in a new database, which is opened by its URL and closed.
pub fn counts<B: AnyOpen>(alloc: Global, url: &str) -> Result<Vec<Copies>, Error> {
    let mut conn = opened::<B>(alloc, url)?;
    let counts = filled::<Any<B>>(alloc, &mut conn);
    closed(conn, counts)
}

const PUT: &str = "INSERT INTO kv(k, v) VALUES (?, ?) ON CONFLICT(k) DO UPDATE SET v = excluded.v";

// Sets how many copies of a book there are.
fn set<'t, DB: Database, E: Executor<DB>>(
    alloc: Global,
    conn: &mut E,
    book: i64,
    copies: i64,
) -> Result<(), Error>
where
    DB::Arguments: IntoArguments<DB>,
    i64: Encode<'t, DB> + SqlType<DB>,
{
    let query = query::<DB, &'static str>(alloc, PUT)?;
    let written = query
        .bind(alloc, book)
        .bind(alloc, copies)
        .execute(alloc, conn)?;
    drop(written);
    Ok(())
}

// A count that is committed, and one in a level that is rolled back.
fn fill<'t, DB: Database, E: Executor<DB>>(alloc: Global, conn: &mut E) -> Result<(), Error>
where
    DB::Arguments: IntoArguments<DB>,
    i64: Encode<'t, DB> + SqlType<DB>,
{
    runs::<DB, E>(alloc, conn, "BEGIN")?;
    set::<DB, E>(alloc, conn, 2, 7)?;
    set::<DB, E>(alloc, conn, 1, 5)?;
    runs::<DB, E>(alloc, conn, "SAVEPOINT _sqlx_savepoint_1")?;
    set::<DB, E>(alloc, conn, 1, 0)?;
    runs::<DB, E>(alloc, conn, "ROLLBACK TO SAVEPOINT _sqlx_savepoint_1")?;
    runs::<DB, E>(alloc, conn, "COMMIT")
}

fn filled<'t, DB: Database>(alloc: Global, conn: &mut DB::Connection) -> Result<Vec<Copies>, Error>
where
    DB::Connection: Executor<DB>,
    DB::Arguments: IntoArguments<DB>,
    i64: Encode<'t, DB> + SqlType<DB>,
    Copies: FromRow<DB>,
{
    fill::<DB, DB::Connection>(alloc, conn)?;
    let all = query_as::<DB, Copies, &'static str>(alloc, "SELECT k, v FROM kv ORDER BY k")?;
    all.fetch_all(alloc, conn)
}
