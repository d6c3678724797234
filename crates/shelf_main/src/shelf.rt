//! Books in a database with a table of them.

use crate::book::Book;
use crate::opening::{closed, opened};
use sqlx_any::{Any, AnyOpen, Database, Encode, Executor, IntoArguments, SqlType};
use sqlx_query::{query, query_as};
use sqlx_query_rows::FromRow;
use sqlx_text::Error;
use sqlx_tx::calls;
use std::alloc::Global;

/// A book that is added: its title and its pages.
pub type Title<'t> = (&'t str, i64);

/// What is seen of a shelf: whether a title that was there was refused, and the books of more than 200 pages.
pub type Seen = (bool, Vec<Book>);

/// A shelf in a new database, which is opened by its URL and closed.
pub fn seen<B: AnyOpen>(alloc: Global, url: &str) -> Result<Seen, Error> {
    let mut conn = opened::<B>(alloc, url)?;
    let seen = filled::<Any<B>>(alloc, &mut conn);
    closed(conn, seen)
}

const TABLE: &str = "CREATE TABLE books(title TEXT PRIMARY KEY, pages INTEGER NOT NULL)";

const TWO: &[Title] = &[("Dune", 604), ("The Hobbit", 310)];

const ONE_AGAIN: &[Title] = &[("Emma", 474), ("Dune", 604)];

// Adds two books, and then one of them again beside a new one.
fn filled<'t, DB: Database>(alloc: Global, conn: &mut DB::Connection) -> Result<Seen, Error>
where
    DB::Connection: Executor<DB>,
    DB::Arguments: IntoArguments<DB>,
    &'t str: Encode<'t, DB> + SqlType<DB>,
    i64: Encode<'t, DB> + SqlType<DB>,
    Book: FromRow<DB>,
{
    runs::<DB, DB::Connection>(alloc, conn, TABLE)?;
    adds::<DB>(alloc, conn, TWO)?;
    let is_refused = refuses(adds::<DB>(alloc, conn, ONE_AGAIN));
    match longer_than::<DB, DB::Connection>(alloc, conn, 200) {
        Ok(books) => Ok((is_refused, books)),
        Err(error) => Err(error),
    }
}

fn refuses(answer: Result<(), Error>) -> bool {
    let is_refused = answer.is_err();
    drop(answer);
    is_refused
}

/// Runs a text.
pub fn runs<DB: Database, E: Executor<DB>>(
    alloc: Global,
    conn: &mut E,
    text: &'static str,
) -> Result<(), Error> {
    match conn.execute(alloc, text) {
        Ok(written) => {
            drop(written);
            Ok(())
        }
        Err(error) => Err(error),
    }
}

// Adds a book.
fn add<'t, DB: Database, E: Executor<DB>>(
    alloc: Global,
    conn: &mut E,
    title: &'t str,
    pages: i64,
) -> Result<(), Error>
where
    DB::Arguments: IntoArguments<DB>,
    &'t str: Encode<'t, DB> + SqlType<DB>,
    i64: Encode<'t, DB> + SqlType<DB>,
{
    let text = "INSERT INTO books(title, pages) VALUES (?, ?)";
    let query = query::<DB, &'static str>(alloc, text)?;
    let added = query
        .bind(alloc, title)
        .bind(alloc, pages)
        .execute(alloc, conn)?;
    drop(added);
    Ok(())
}

// Adds each book.
fn add_all<'t, DB: Database, E: Executor<DB>>(
    alloc: Global,
    conn: &mut E,
    books: &[Title<'t>],
) -> Result<(), Error>
where
    DB::Arguments: IntoArguments<DB>,
    &'t str: Encode<'t, DB> + SqlType<DB>,
    i64: Encode<'t, DB> + SqlType<DB>,
{
    for (title, pages) in books {
        add::<DB, E>(alloc, conn, title, *pages)?;
    }
    Ok(())
}

// Adds the books in a transaction, or none where one is refused.
fn adds<'t, DB: Database>(
    alloc: Global,
    conn: &mut DB::Connection,
    books: &[Title<'t>],
) -> Result<(), Error>
where
    DB::Connection: Executor<DB>,
    DB::Arguments: IntoArguments<DB>,
    &'t str: Encode<'t, DB> + SqlType<DB>,
    i64: Encode<'t, DB> + SqlType<DB>,
{
    calls::within::<DB, _, (), Error>(alloc, conn, |conn| -> Result<(), Error> {
        add_all::<DB, DB::Connection>(alloc, conn, books)
    })
}

// The books of more pages than this, by their titles.
fn longer_than<'t, DB: Database, E: Executor<DB>>(
    alloc: Global,
    conn: &mut E,
    pages: i64,
) -> Result<Vec<Book>, Error>
where
    DB::Arguments: IntoArguments<DB>,
    i64: Encode<'t, DB> + SqlType<DB>,
    Book: FromRow<DB>,
{
    let text = "SELECT title, pages FROM books WHERE pages > ? ORDER BY title";
    query_as::<DB, Book, &'static str>(alloc, text)?
        .bind(alloc, pages)
        .fetch_all(alloc, conn)
}
