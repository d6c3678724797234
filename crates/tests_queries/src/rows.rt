//! What a row becomes: a struct of a user's own, and tuples.

use crate::says::says;
use sqlx_query::{FromColumn, FromRow};
use sqlx_text::{AnyTypeInfoKind, Error, OutOfMemory, UStr};
use sqlx_traits::*;
use std::alloc::Global;
use std::fmt::Debug;
use std::test::*;
use tests_database::answers::shown;
use tests_database::letters::row_of;
use tests_database::{Held, Toy, ToyColumn, ToyRow, ToyType, ToyValue};

/// A note, as the first two columns of a row tell it.
#[derive(Debug, Drop)]
pub struct Note {
    pub number: i64,
    pub title: String,
}

impl<DB: Database> FromRow<DB> for Note
where
    i64: FromColumn<DB>,
    String: FromColumn<DB>,
{
    ghost use Rattle.sqlx_query_rows.specs.FromRow.{Gives, Then};

    ghost made = { λ row. Then (⟦<i64 as FromColumn<DB>>⟧.column 0 row) λ number. Then (⟦<String as FromColumn<DB>>⟧.column 1 row) λ title.
        Gives (record { number = number; title = title }) };

    fn from_row(alloc: Global, row: &DB::Row) -> Result<Self, Error> {
        Ok(Note {
            number: i64::from_column(alloc, row, 0)?,
            title: String::from_column(alloc, row, 1)?,
        })
    }
}

// What a row becomes.
fn made<T: FromRow<Toy> + Debug + Drop>(
    alloc: Global,
    row: &ToyRow,
) -> Result<String, OutOfMemory> {
    shown(alloc, T::from_row(alloc, row))
}

#[test]
fn makes_a_struct(rt: HostRuntime) -> Result<(), Fail> {
    let alloc = rt.alloc();
    for (letters, want) in &[
        ("lt", "Note { number: 7, title: \"x\" }"),
        (
            "ll",
            "error occurred while decoding column 1: mismatched types; Rust type `String` (as SQL type `TEXT`) is not compatible with SQL type `BIGINT`",
        ),
        (
            "l",
            "column index out of bounds: the len is 1, but the index is 1",
        ),
    ] {
        let row = row_of(alloc, letters)?;
        says(&rt, made::<Note>(alloc, &row), want)?;
    }
    Ok(())
}

// A row with one column more, and its value: the number 101 at the first position, and so on, or a text.
fn with(row: ToyRow, ordinal: u8, is_text: bool) -> Result<ToyRow, OutOfMemory> {
    let (kind, held) = if is_text {
        (AnyTypeInfoKind::Text, Held::Text(UStr::from_static("x")))
    } else {
        let number = 101 + i64::from(ordinal);
        (AnyTypeInfoKind::BigInt, Held::Whole(number))
    };
    let column = ToyColumn {
        ordinal: usize::from(ordinal),
        name: UStr::from_static(""),
        type_info: ToyType::of(kind),
    };
    let kind = Some(kind);
    row.with(column, ToyValue { kind, held })
}

// A row of so many columns, with a text at one of them.
fn numbers(alloc: Global, count: u8, text_at: u8) -> Result<ToyRow, OutOfMemory> {
    let mut row = ToyRow::new(alloc);
    for ordinal in 0..count {
        row = with(row, ordinal, ordinal == text_at)?;
    }
    Ok(row)
}

type EightNumbers = (i64, i64, i64, i64, i64, i64, i64, i64);

type SixteenNumbers = (
    i64,
    i64,
    i64,
    i64,
    i64,
    i64,
    i64,
    i64,
    i64,
    i64,
    i64,
    i64,
    i64,
    i64,
    i64,
    i64,
);

// Sixteen numbers, each from the column at its position.
fn sixteen(alloc: Global, row: &ToyRow) -> Result<[i64; 16], Error> {
    let all = <SixteenNumbers as FromRow<Toy>>::from_row(alloc, row)?;
    Ok([
        all.0, all.1, all.2, all.3, all.4, all.5, all.6, all.7, all.8, all.9, all.10, all.11,
        all.12, all.13, all.14, all.15,
    ])
}

fn eight(alloc: Global, row: &ToyRow) -> Result<[i64; 8], Error> {
    let all = <EightNumbers as FromRow<Toy>>::from_row(alloc, row)?;
    Ok([all.0, all.1, all.2, all.3, all.4, all.5, all.6, all.7])
}

// What a row becomes as a tuple of so many numbers, of one where they are neither sixteen, eight nor none.
fn numbers_of(alloc: Global, row: &ToyRow, count: u8) -> Result<String, OutOfMemory> {
    match count {
        16 => shown(alloc, sixteen(alloc, row)),
        8 => shown(alloc, eight(alloc, row)),
        0 => made::<()>(alloc, row),
        _ => made::<(i64,)>(alloc, row),
    }
}

#[test]
fn tuples_read_each_column_in_turn(rt: HostRuntime) -> Result<(), Fail> {
    let alloc = rt.alloc();
    for (columns, text_at, count, want) in &[
        (
            16,
            16,
            16,
            "[101, 102, 103, 104, 105, 106, 107, 108, 109, 110, 111, 112, 113, 114, 115, 116]",
        ),
        (16, 16, 8, "[101, 102, 103, 104, 105, 106, 107, 108]"),
        (16, 16, 1, "(101,)"),
        (16, 16, 0, "()"),
        (
            16,
            1,
            16,
            "error occurred while decoding column 1: mismatched types; Rust type `i64` (as SQL type `BIGINT`) is not compatible with SQL type `TEXT`",
        ),
        (
            9,
            8,
            16,
            "error occurred while decoding column 8: mismatched types; Rust type `i64` (as SQL type `BIGINT`) is not compatible with SQL type `TEXT`",
        ),
        (
            15,
            16,
            16,
            "column index out of bounds: the len is 15, but the index is 15",
        ),
    ] {
        let row = numbers(alloc, *columns, *text_at)?;
        let told = numbers_of(alloc, &row, *count);
        drop(row);
        says(&rt, told, want)?;
    }
    Ok(())
}
