//! Reads of a driver's rows, values and columns, at the toy database.

use crate::present::Present;
use crate::samples::toy_statement;
use crate::says::*;
use sqlx_text::OutOfMemory;
use sqlx_traits::*;
use std::alloc::Global;
use std::test::*;
use tests_database::letters::{row_of, single};
use tests_database::{Toy, ToyRow};

// The text at an index: lent and then owned, each checked and unchecked.
fn texts<'r, DB: Database, I: ColumnIndex<DB::Row> + Drop>(
    alloc: Global,
    row: &'r DB::Row,
    index: I,
) -> String
where
    DB::Value: 'r,
    &'r str: Decode<'r, DB> + SqlType<DB>,
    String: DecodeOwned<DB> + SqlType<DB>,
{
    let mut line = String::new(alloc);
    let told = &mut line;
    answered(told, reads::try_get::<DB, &'r str, &I>(alloc, row, &index));
    answered(
        told,
        reads::try_get_unchecked::<DB, &'r str, &I>(alloc, row, &index),
    );
    answered(told, row.try_get::<String, &I>(alloc, &index));
    answered(
        told,
        row.try_get_unchecked::<Option<String>, I>(alloc, index),
    );
    line
}

fn toy_texts<I: ColumnIndex<ToyRow> + Drop>(alloc: Global, row: &ToyRow, index: I) -> String {
    texts::<Toy, I>(alloc, row, index)
}

const NULL_TEXTS: &str =
    "error occurred while decoding column \"none\": unexpected null; try decoding as an `Option`|\
    error occurred while decoding column \"none\": unexpected null; try decoding as an `Option`|\
    error occurred while decoding column \"none\": unexpected null; try decoding as an `Option`|None|";

const FLAG_TEXTS: &str =
    "error occurred while decoding column \"flag\": mismatched types; Rust type `&str` (as SQL type `TEXT`) \
    is not compatible with SQL type `BOOLEAN`|\
    error occurred while decoding column \"flag\": out of range integral type conversion attempted|\
    error occurred while decoding column \"flag\": mismatched types; Rust type `String` (as SQL type `TEXT`) \
    is not compatible with SQL type `BOOLEAN`|\
    error occurred while decoding column \"flag\": out of range integral type conversion attempted|";

const MISSING_TEXTS: &str = "no column found for name: when|no column found for name: when|\
    no column found for name: when|no column found for name: when|";

const PAST_TEXTS: &str = "column index out of bounds: the len is 3, but the index is 3|\
    column index out of bounds: the len is 3, but the index is 3|\
    column index out of bounds: the len is 3, but the index is 3|\
    column index out of bounds: the len is 3, but the index is 3|";

#[test]
fn reads_texts(rt: HostRuntime) -> Result<(), Fail> {
    let alloc = rt.alloc();
    let row = row_of(alloc, "tnb")?;
    for (name, want) in &[
        ("text", "\"x\"|\"x\"|\"x\"|Some(\"x\")|"),
        ("none", NULL_TEXTS),
        ("flag", FLAG_TEXTS),
        ("when", MISSING_TEXTS),
    ] {
        says(&rt, toy_texts::<&str>(alloc, &row, name), want);
    }
    says(&rt, toy_texts::<usize>(alloc, &row, 3), PAST_TEXTS);
    Ok(())
}

// A value alone, in the same four ways.
fn values<'r, DB: Database>(alloc: Global, value: &'r DB::Value, line: &mut String)
where
    &'r str: Decode<'r, DB> + SqlType<DB>,
    String: DecodeOwned<DB> + SqlType<DB>,
{
    answered(line, reads::try_decode::<DB, &'r str>(alloc, value));
    answered(
        line,
        reads::try_decode_unchecked::<DB, Option<&'r str>>(alloc, value),
    );
    answered(line, value.try_decode::<String>(alloc));
    answered(line, value.try_decode_unchecked::<String>(alloc));
}

// The same of the first value of a row.
fn decoded<'r, DB: Database>(alloc: Global, row: &'r DB::Row) -> String
where
    DB::Value: 'r,
    usize: ColumnIndex<DB::Row>,
    &'r str: Decode<'r, DB> + SqlType<DB>,
    String: DecodeOwned<DB> + SqlType<DB>,
{
    let mut line = String::new(alloc);
    match row.try_get_raw(alloc, 0usize) {
        Ok(value) => values::<DB>(alloc, value, &mut line),
        Err(error) => refused(&mut line, error),
    }
    line
}

const NULLS: &str =
    "error occurred while decoding: unexpected null; try decoding as an `Option`|None|\
    error occurred while decoding: unexpected null; try decoding as an `Option`|\
    error occurred while decoding: unexpected null; try decoding as an `Option`|";

const NUMBERS: &str =
    "error occurred while decoding: mismatched types; Rust type `&str` (as SQL type `TEXT`) \
    is not compatible with SQL type `INTEGER`|\
    error occurred while decoding: out of range integral type conversion attempted|\
    error occurred while decoding: mismatched types; Rust type `String` (as SQL type `TEXT`) \
    is not compatible with SQL type `INTEGER`|\
    error occurred while decoding: out of range integral type conversion attempted|";

#[test]
fn decodes_values(rt: HostRuntime) -> Result<(), Fail> {
    let alloc = rt.alloc();
    for (letter, want) in &[
        ('t', "\"x\"|Some(\"x\")|\"x\"|\"x\"|"),
        ('z', NULLS),
        ('i', NUMBERS),
    ] {
        let row = single(alloc, *letter)?;
        says(&rt, decoded::<Toy>(alloc, &row), want);
        drop(row);
    }
    Ok(())
}

// The first value by each call that needs to know that it can be read, where there is one.
fn of_value(alloc: Global, row: &ToyRow, line: &mut String) {
    if row.is_empty() {
        return;
    }
    let value = row.value(0);
    given(line, value.decode::<Present>(alloc));
    given(line, value.decode_unchecked::<Present>(alloc));
    given(line, reads::decode::<Toy, Present>(alloc, value));
    given(line, reads::decode_unchecked::<Toy, Present>(alloc, value));
}

// A column by each call that needs to know that it is there, where it is.
fn of_row(alloc: Global, row: &ToyRow, at: usize, line: &mut String) {
    match row.try_get_raw(alloc, at) {
        Ok(_value) => {
            given(line, row.get::<Present, usize>(alloc, at));
            given(line, row.get_unchecked::<Present, usize>(alloc, at));
            given(line, reads::get::<Toy, Present, usize>(alloc, row, at));
            given(
                line,
                reads::get_unchecked::<Toy, Present, usize>(alloc, row, at),
            );
        }
        Err(error) => refused(line, error),
    }
}

// Both of a row, of the column at a position.
fn known(alloc: Global, row: ToyRow, at: usize) -> String {
    let mut line = String::new(alloc);
    of_value(alloc, &row, &mut line);
    of_row(alloc, &row, at, &mut line);
    drop(row);
    line
}

const KNOWN: &str = "Present|Present|Present|Present|Present|Present|Present|Present|\n\
    Present|Present|Present|Present|column index out of bounds: the len is 2, but the index is 2|\n\
    column index out of bounds: the len is 0, but the index is 0|\n";

#[test]
fn reads_what_is_known_to_be_there(rt: HostRuntime) -> Result<(), Fail> {
    let alloc = rt.alloc();
    let mut lines = String::new(alloc);
    for (letters, at) in &[("tn", 1), ("tn", 2), ("", 0)] {
        ended(&mut lines, known(alloc, row_of(alloc, letters)?, *at));
    }
    says(&rt, lines, KNOWN);
    Ok(())
}

// A column's position, name, type and origin.
fn described<DB: Database>(column: &DB::Column, line: &mut String) {
    let ty = column.type_info().name();
    told_column(line, column.ordinal(), column.name(), ty, column.origin());
}

fn told_column(line: &mut String, at: usize, name: &str, ty: &str, origin: ColumnOrigin) {
    tell(line, &at);
    tell(line, &name);
    tell(line, &ty);
    shown(line, origin);
}

// A column that is known to be there.
fn known_column<DB: Database>(column: Result<&DB::Column, OutOfMemory>, line: &mut String) {
    match column {
        Ok(column) => described::<DB>(column, line),
        Err(OutOfMemory) => {}
    }
}

// The column of a row at a position, as it is tried and as it is known to be there.
fn in_row<DB: Database>(alloc: Global, row: &DB::Row, at: usize, line: &mut String)
where
    usize: ColumnIndex<DB::Row>,
{
    match row.try_column(alloc, at) {
        Ok(column) => {
            described::<DB>(column, line);
            known_column::<DB>(row.column(alloc, at), line);
        }
        Err(error) => refused(line, error),
    }
}

fn in_statement<DB: Database>(
    alloc: Global,
    statement: &DB::Statement,
    at: usize,
    line: &mut String,
)
where
    usize: ColumnIndex<DB::Statement>,
{
    match statement.try_column(alloc, at) {
        Ok(column) => {
            described::<DB>(column, line);
            known_column::<DB>(statement.column(alloc, at), line);
        }
        Err(error) => refused(line, error),
    }
}

// The columns of a row and of a statement at a position.
fn columns<DB: Database>(
    alloc: Global,
    row: &DB::Row,
    statement: &DB::Statement,
    at: usize,
) -> String
where
    usize: ColumnIndex<DB::Row> + ColumnIndex<DB::Statement>,
{
    let mut line = String::new(alloc);
    in_row::<DB>(alloc, row, at, &mut line);
    in_statement::<DB>(alloc, statement, at, &mut line);
    line
}

const COLUMNS: &str =
    "0|text|TEXT|Unknown|0|text|TEXT|Unknown|0|text|TEXT|Unknown|0|text|TEXT|Unknown|\n\
    1|point|POINT|Unknown|1|point|POINT|Unknown|1|point|POINT|Unknown|1|point|POINT|Unknown|\n";

#[test]
fn finds_columns(rt: HostRuntime) -> Result<(), Fail> {
    let alloc = rt.alloc();
    let statement = toy_statement(alloc, "tp")?;
    let row = row_of(alloc, "tp")?;
    let mut lines = String::new(alloc);
    ended(&mut lines, columns::<Toy>(alloc, &row, &statement, 0));
    ended(&mut lines, columns::<Toy>(alloc, &row, &statement, 1));
    says(&rt, lines, COLUMNS);
    Ok(())
}
