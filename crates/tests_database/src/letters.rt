//! Columns, rows and types by letters.

use crate::{Bytes, Held, ToyColumn, ToyRow, ToyType, ToyValue};
use sqlx_text::{AnyTypeInfoKind, OutOfMemory, UStr};
use sqlx_traits::Row;
use std::alloc::Global;

// What a letter is: a column's name, its kind, and what its value holds.
fn column_of(letter: char, ordinal: usize) -> ToyColumn {
    let (name, kind) = match letter {
        'b' => ("flag", Some(AnyTypeInfoKind::Bool)),
        's' => ("small", Some(AnyTypeInfoKind::SmallInt)),
        'i' => ("whole", Some(AnyTypeInfoKind::Integer)),
        'l' => ("large", Some(AnyTypeInfoKind::BigInt)),
        't' => ("text", Some(AnyTypeInfoKind::Text)),
        'y' => ("bytes", Some(AnyTypeInfoKind::Blob)),
        'n' => ("none", Some(AnyTypeInfoKind::Text)),
        'z' => ("null", Some(AnyTypeInfoKind::Null)),
        'p' => ("point", None),
        _ => ("other", Some(AnyTypeInfoKind::Integer)),
    };
    ToyColumn {
        ordinal: if letter == 'o' { 9 } else { ordinal },
        name: UStr::from_static(name),
        type_info: ToyType { kind },
    }
}

fn held_of(alloc: Global, letter: char) -> Result<Held, OutOfMemory> {
    Ok(match letter {
        'b' => Held::Flag(true),
        's' => Held::Whole(5),
        'i' => Held::Whole(6),
        'l' => Held::Whole(7),
        'y' => Held::Bytes(Bytes::from_vec(vec![in alloc; 1, 2]?)),
        'n' | 'z' => Held::Nothing,
        _ => Held::Text(UStr::from_static("x")),
    })
}

// The value of a letter.
fn value_of(alloc: Global, letter: char, column: &ToyColumn) -> Result<ToyValue, OutOfMemory> {
    let held = held_of(alloc, letter)?;
    let kind = if letter == 'q' {
        None
    } else {
        column.type_info.kind
    };
    Ok(ToyValue { kind, held })
}

// A row with the column and the value of a letter behind those that are there.
fn with(alloc: Global, row: ToyRow, letter: char) -> Result<ToyRow, OutOfMemory> {
    let column = column_of(letter, row.len());
    let value = value_of(alloc, letter, &column)?;
    row.with(column, value)
}

/// Columns by letters: `b`, `s`, `i`, `l`, `t`, `y` are of the kinds from `Bool` on and are called `flag`, `small`,
/// `whole`, `large`, `text`, `bytes`; `n` is called `none` and is of texts, `z` is called `null` and of nulls, `p` is
/// called `point` and has no kind; each other letter is called `other` and is of integers, and `o` has the ordinal 9.
pub fn columns_of(alloc: Global, letters: &str) -> Result<Vec<ToyColumn>, OutOfMemory> {
    let mut columns = Vec::new(alloc);
    for letter in letters.chars() {
        let ordinal = columns.len();
        columns.push(column_of(letter, ordinal))?;
    }
    Ok(columns)
}

/// The types of the same letters.
pub fn types_of(alloc: Global, letters: &str) -> Result<Vec<ToyType>, OutOfMemory> {
    let mut types = Vec::new(alloc);
    for letter in letters.chars() {
        types.push(column_of(letter, 0).type_info)?;
    }
    Ok(types)
}

/// A row of the same letters: the values are true, 5, 6, 7, the text `x` and the bytes 1 and 2; those of `n` and `z`
/// are null, each other is the text `x`. The value of `q` is of the type without a kind.
pub fn row_of(alloc: Global, letters: &str) -> Result<ToyRow, OutOfMemory> {
    let mut row = ToyRow::new(alloc);
    for letter in letters.chars() {
        row = with(alloc, row, letter)?;
    }
    Ok(row)
}

/// A row of one letter.
pub fn single(alloc: Global, letter: char) -> Result<ToyRow, OutOfMemory> {
    with(alloc, ToyRow::new(alloc), letter)
}
