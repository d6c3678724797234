//! Notes in a table, on whatever connection is lent.

use sqlite_driver::{Sqlite, SqliteConnection};
use sqlx_any::{AnyConnection, AnyRow};
use sqlx_query::{query, query_as};
use sqlx_query_rows::{FromColumn, FromRow};
use sqlx_text::Error;
use sqlx_tx::{Borrowed, Hold, calls};
use std::alloc::Global;

/// A connection to the database of the notes.
pub type Conn = AnyConnection<SqliteConnection>;

/// A note, and who wrote it.
#[derive(Drop)]
pub struct Note {
    pub writer: String,
    pub text: String,
}

impl FromRow<Sqlite> for Note {
    fn from_row(alloc: Global, row: &AnyRow) -> Result<Self, Error> {
        Ok(Note {
            writer: FromColumn::<Sqlite>::from_column(alloc, row, 0)?,
            text: FromColumn::<Sqlite>::from_column(alloc, row, 1)?,
        })
    }
}

/// Makes the table, without a note.
pub fn clear(alloc: Global, conn: &mut Conn) -> Result<(), Error> {
    query::<Sqlite, _>(alloc, "DROP TABLE IF EXISTS notes")?.execute(alloc, conn)?;
    query::<Sqlite, _>(
        alloc,
        "CREATE TABLE notes(writer TEXT, text TEXT, UNIQUE(writer, text))",
    )?
    .execute(alloc, conn)?;
    Ok(())
}

/// Adds a note.
pub fn add(alloc: Global, conn: &mut Conn, writer: &str, text: &str) -> Result<(), Error> {
    query::<Sqlite, _>(alloc, "INSERT INTO notes(writer, text) VALUES (?, ?)")?
        .bind(alloc, writer)
        .bind(alloc, text)
        .execute(alloc, conn)?;
    Ok(())
}

/// Adds these notes in a transaction, or none where one of them is refused.
pub fn add_all(alloc: Global, conn: &mut Conn, writer: &str, texts: &[&str]) -> Result<(), Error> {
    let mut tx = calls::begin::<Sqlite>(alloc, conn)?;
    let added = add_each(alloc, tx.as_mut(), writer, texts);
    if !calls::is_in_transaction::<Sqlite>(tx.as_ref()) {
        let Borrowed(_conn) = tx.into_holder();
        return added;
    }
    if let Err(error) = added {
        let Borrowed(_conn) = tx.give_up();
        return Err(error);
    }
    let (holder, kept) = tx.commit(alloc);
    let Borrowed(_conn) = holder;
    kept
}

// Adds these notes, up to the first that is refused.
fn add_each(alloc: Global, conn: &mut Conn, writer: &str, texts: &[&str]) -> Result<(), Error> {
    for text in texts {
        add(alloc, conn, writer, text)?;
    }
    Ok(())
}

/// All notes, by writer and text.
pub fn all(alloc: Global, conn: &mut Conn) -> Result<Vec<Note>, Error> {
    query_as::<Sqlite, Note, _>(
        alloc,
        "SELECT writer, text FROM notes ORDER BY writer, text",
    )?
    .fetch_all(alloc, conn)
}
