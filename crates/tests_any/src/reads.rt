//! Which Rust types read a value of `Any` of each kind, and what they read.

use crate::parts::found;
use crate::present::Present;
use crate::samples::{Sample, row_of};
use crate::says::*;
use sqlx_any::*;
use sqlx_text::{Error, OutOfMemory};
use std::alloc::Global;
use std::fmt::Debug;
use std::test::*;
use tests_backend::{StubBackend, cells};

// A type's name and what it reads of a row's one value, where it reads it.
fn read_as<'r, T: AnyRead<'r> + Debug + Drop>(
    alloc: Global,
    row: &'r AnyRow,
    name: &str,
    line: &mut String,
) {
    match row.try_get::<T, usize>(alloc, 0) {
        Ok(value) => {
            drop(write!(line, "{name} {value:?}|"));
            drop(value);
        }
        Err(error) => drop(error),
    }
}

// The types that read a row's one value, and what they read.
fn readers(alloc: Global, row: &AnyRow) -> String {
    let mut line = String::new(alloc);
    let told = &mut line;
    read_as::<bool>(alloc, row, "bool", told);
    read_as::<i16>(alloc, row, "i16", told);
    read_as::<i32>(alloc, row, "i32", told);
    read_as::<i64>(alloc, row, "i64", told);
    read_as::<&str>(alloc, row, "&str", told);
    read_as::<String>(alloc, row, "String", told);
    read_as::<&[u8]>(alloc, row, "&[u8]", told);
    read_as::<Vec<u8>>(alloc, row, "Vec<u8>", told);
    line
}

const KINDS: &[(Sample, &str)] = &[
    (Sample::Null(AnyTypeInfoKind::BigInt), ""),
    (Sample::Flag(true), "bool true|"),
    (Sample::Small(-5), "i16 -5|i32 -5|i64 -5|"),
    (Sample::Whole(-32_768), "i16 -32768|i32 -32768|i64 -32768|"),
    (Sample::Whole(-32_769), "i32 -32769|i64 -32769|"),
    (Sample::Large(32_767), "i16 32767|i32 32767|i64 32767|"),
    (Sample::Large(32_768), "i32 32768|i64 32768|"),
    (
        Sample::Large(2_147_483_647),
        "i32 2147483647|i64 2147483647|",
    ),
    (Sample::Large(2_147_483_648), "i64 2147483648|"),
    (
        Sample::Large(-2_147_483_648),
        "i32 -2147483648|i64 -2147483648|",
    ),
    (Sample::Large(-2_147_483_649), "i64 -2147483649|"),
    (Sample::Text("5"), "&str \"5\"|String \"5\"|"),
    (Sample::Slice("5"), "&str \"5\"|String \"5\"|"),
    (Sample::Blob, "&[u8] [1, 2]|Vec<u8> [1, 2]|"),
];

#[test]
fn each_kind_has_its_readers(rt: HostRuntime) -> Result<(), Fail> {
    let alloc = rt.alloc();
    for (sample, want) in KINDS {
        let row = row_of(alloc, *sample)?;
        says(&rt, readers(alloc, &row), want);
        drop(row);
    }
    Ok(())
}

// A row's one value, read as an option of a number and as one of a text.
fn options(alloc: Global, row: &AnyRow) -> String {
    let mut line = String::new(alloc);
    answered(&mut line, row.try_get::<Option<i32>, usize>(alloc, 0));
    answered(&mut line, row.try_get::<Option<&str>, usize>(alloc, 0));
    line
}

const OPTIONS: &str = "None|None|\n\
    Some(5)|error occurred while decoding column 0: mismatched types; Rust type `&str` is not compatible with SQL type `BIGINT`|\n\
    error occurred while decoding column 0: mismatched types; Rust type `i32` is not compatible with SQL type `TEXT`|Some(\"x\")|\n";

#[test]
fn reads_options(rt: HostRuntime) -> Result<(), Fail> {
    let alloc = rt.alloc();
    let null = Sample::Null(AnyTypeInfoKind::Text);
    let mut lines = String::new(alloc);
    for sample in &[null, Sample::Large(5), Sample::Text("x")] {
        let row = row_of(alloc, *sample)?;
        ended(&mut lines, options(alloc, &row));
        drop(row);
    }
    says(&rt, lines, OPTIONS);
    Ok(())
}

// What a type makes of a value alone: checked and unchecked.
fn alone<'r, T: AnyRead<'r> + Debug + Drop>(alloc: Global, value: &'r AnyValue, line: &mut String) {
    answered(line, value.try_decode::<T>(alloc));
    answered(line, value.try_decode_unchecked::<T>(alloc));
}

// What a type makes of a row's one value: checked by a name, unchecked, and alone.
fn inherent<'r, T: AnyRead<'r> + Debug + Drop>(alloc: Global, row: &'r AnyRow, line: &mut String) {
    answered(line, row.try_get::<T, &str>(alloc, "what"));
    answered(line, row.try_get_unchecked::<T, usize>(alloc, 0));
    match row.try_get_raw(alloc, 0usize) {
        Ok(value) => alone::<T>(alloc, value, line),
        Err(error) => refused(line, error),
    }
}

// What a type makes of a value alone by the calls of a driver's values.
fn alone_by_traits<DB: Database, T: DecodeOwned<DB> + SqlType<DB> + Debug + Drop>(
    alloc: Global,
    value: &DB::Value,
    line: &mut String,
) {
    answered(line, value.try_decode::<T>(alloc));
    answered(line, value.try_decode_unchecked::<T>(alloc));
}

// The same as `inherent` by the calls of a driver's rows and values.
fn by_traits<DB: Database, T: DecodeOwned<DB> + SqlType<DB> + Debug + Drop>(
    alloc: Global,
    row: &DB::Row,
    line: &mut String,
)
where
    usize: ColumnIndex<DB::Row>,
    &'static str: ColumnIndex<DB::Row>,
{
    answered(line, row.try_get::<T, &'static str>(alloc, "what"));
    answered(line, row.try_get_unchecked::<T, usize>(alloc, 0));
    match row.try_get_raw(alloc, 0usize) {
        Ok(value) => alone_by_traits::<DB, T>(alloc, value, line),
        Err(error) => refused(line, error),
    }
}

// What the calls of a row of `Any` tell of its one value as an `i16`.
fn small(alloc: Global, row: &AnyRow) -> String {
    let mut line = String::new(alloc);
    inherent::<i16>(alloc, row, &mut line);
    line
}

// What those of a driver's row tell of it.
fn small_by_traits<B: AnyConnectionBackend>(alloc: Global, row: &AnyRow) -> String {
    let mut line = String::new(alloc);
    by_traits::<Any<B>, i16>(alloc, row, &mut line);
    line
}

const RANGE: &str =
    "error occurred while decoding column \"what\": out of range integral type conversion attempted|\
    error occurred while decoding column 0: out of range integral type conversion attempted|\
    error occurred while decoding: out of range integral type conversion attempted|\
    error occurred while decoding: out of range integral type conversion attempted|";

const NULL: &str = "error occurred while decoding column \"what\": expected SMALLINT, got NULL|\
    error occurred while decoding column 0: expected SMALLINT, got NULL|\
    error occurred while decoding: expected SMALLINT, got NULL|\
    error occurred while decoding: expected SMALLINT, got NULL|";

const TEXT: &str =
    "error occurred while decoding column \"what\": mismatched types; Rust type `i16` is not compatible with SQL type `TEXT`|\
    error occurred while decoding column 0: expected SMALLINT, got TEXT|\
    error occurred while decoding: mismatched types; Rust type `i16` (as SQL type `SMALLINT`) is not compatible with SQL type `TEXT`|\
    error occurred while decoding: expected SMALLINT, got TEXT|";

#[test]
fn tells_why_a_value_is_not_read(rt: HostRuntime) -> Result<(), Fail> {
    let alloc = rt.alloc();
    for (sample, want) in &[
        (Sample::Large(70_000), RANGE),
        (Sample::Null(AnyTypeInfoKind::Text), NULL),
        (Sample::Text("5"), TEXT),
    ] {
        let row = row_of(alloc, *sample)?;
        says(&rt, small(alloc, &row), want);
        says(&rt, small_by_traits::<StubBackend>(alloc, &row), want);
        drop(row);
    }
    Ok(())
}

// The column and the number at an index of a row.
fn at<I: ColumnIndex<AnyRow> + Drop>(alloc: Global, row: &AnyRow, index: I, line: &mut String) {
    found(alloc, line, row.try_column::<&I>(alloc, &index));
    answered(line, row.try_get::<i64, I>(alloc, index));
}

// The same at four indexes.
fn columns(alloc: Global, row: AnyRow) -> String {
    let mut line = String::new(alloc);
    at::<usize>(alloc, &row, 1, &mut line);
    at::<usize>(alloc, &row, 2, &mut line);
    at::<&str>(alloc, &row, "x", &mut line);
    at::<&str>(alloc, &row, "z", &mut line);
    drop(row);
    line
}

#[test]
fn finds_columns(rt: HostRuntime) -> Result<(), Fail> {
    let alloc = rt.alloc();
    says(
        &rt,
        columns(alloc, cells::pair(alloc)?),
        "1|y|BIGINT|Unknown|7|\
        column index out of bounds: the len is 2, but the index is 2|\
        column index out of bounds: the len is 2, but the index is 2|\
        0|x|BIGINT|Unknown|5|no column found for name: z|no column found for name: z|",
    );
    Ok(())
}

// The value at a position by the two calls of a row that need to know that it can be read, where there is one.
fn known(alloc: Global, row: &AnyRow, at: usize, line: &mut String) {
    match row.try_get_raw(alloc, at) {
        Ok(_value) => {
            given(line, row.get::<Present, usize>(alloc, at));
            given(line, row.get_unchecked::<Present, usize>(alloc, at));
        }
        Err(error) => refused(line, error),
    }
}

// A value by its two such calls.
fn known_alone(alloc: Global, value: AnyValue, line: &mut String) {
    given(line, value.decode::<Present>(alloc));
    given(line, value.decode_unchecked::<Present>(alloc));
    drop(value);
}

// A truth value, which is known to be read as one.
fn flag(alloc: Global, line: &mut String) {
    let kind = AnyValueKind::Bool(true);
    let value = AnyValue { kind };
    given(line, value.decode::<bool>(alloc));
    drop(value);
}

// Those reads of a row of two columns, of a null and of a truth value.
fn all_known(alloc: Global, row: AnyRow) -> String {
    let mut line = String::new(alloc);
    known(alloc, &row, 1, &mut line);
    known(alloc, &row, 2, &mut line);
    drop(row);
    let kind = AnyValueKind::Null(AnyTypeInfoKind::Text);
    known_alone(alloc, AnyValue { kind }, &mut line);
    flag(alloc, &mut line);
    line
}

#[test]
fn reads_what_is_known_to_be_there(rt: HostRuntime) -> Result<(), Fail> {
    let alloc = rt.alloc();
    says(
        &rt,
        all_known(alloc, cells::pair(alloc)?),
        "Present|Present|column index out of bounds: the len is 2, but the index is 2|Present|Present|true|",
    );
    Ok(())
}
