//! A row of the shelf.

use sqlx_query_rows::{FromColumn, FromRow};
use sqlx_text::Error;
use sqlx_traits::Database;
use std::alloc::Global;

/// A book.
#[derive(Drop)]
pub struct Book {
    pub title: String,
    pub pages: i64,
}

impl<DB: Database> FromRow<DB> for Book
where
    String: FromColumn<DB>,
    i64: FromColumn<DB>,
{
    ghost use Rattle.sqlx_query_rows.specs.FromRow.{Gives, Then};

    ghost made = { λ row. Then (⟦<String as FromColumn<DB>>⟧.column 0 row) λ title. Then (⟦<i64 as FromColumn<DB>>⟧.column 1 row) λ pages.
        Gives (record { title = title; pages = pages }) };

    fn from_row(alloc: Global, row: &DB::Row) -> Result<Self, Error> {
        Ok(Book {
            title: String::from_column(alloc, row, 0)?,
            pages: i64::from_column(alloc, row, 1)?,
        })
    }
}
