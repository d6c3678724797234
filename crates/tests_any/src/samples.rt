//! Values of `Any` by a few words, for tables.

use sqlx_any::{AnyRow, AnyValueKind};
use sqlx_text::{AnyTypeInfoKind, Error, OutOfMemory, SqlStr};
use std::alloc::Global;
use tests_backend::cells;
use tests_database::ToyStatement;
use tests_database::letters::{columns_of, types_of};

/// A value: a number, a truth value, one of two kinds of texts, two bytes, or a null.
#[derive(Clone, Copy)]
pub enum Sample {
    Null(AnyTypeInfoKind),
    Flag(bool),
    Small(i16),
    Whole(i32),
    Large(i64),
    Text(&'static str),
    Slice(&'static str),
    Blob,
}

/// The value.
pub fn value_of(alloc: Global, sample: Sample) -> Result<AnyValueKind, OutOfMemory> {
    Ok(match sample {
        Sample::Null(kind) => AnyValueKind::Null(kind),
        Sample::Flag(flag) => AnyValueKind::Bool(flag),
        Sample::Small(n) => AnyValueKind::SmallInt(n),
        Sample::Whole(n) => AnyValueKind::Integer(n),
        Sample::Large(n) => AnyValueKind::BigInt(n),
        Sample::Text(text) => cells::text(text),
        Sample::Slice(text) => cells::slice(text),
        Sample::Blob => return cells::blob(alloc),
    })
}

/// A row of the value.
pub fn row_of(alloc: Global, sample: Sample) -> Result<AnyRow, Error> {
    cells::single(alloc, value_of(alloc, sample)?)
}

/// A statement of the toy database with columns and parameters by letters.
pub fn toy_statement(alloc: Global, letters: &str) -> Result<ToyStatement, OutOfMemory> {
    Ok(ToyStatement {
        sql: SqlStr::from_static("SELECT"),
        columns: columns_of(alloc, letters)?,
        types: types_of(alloc, letters)?,
    })
}
