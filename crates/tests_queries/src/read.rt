//! Queries whose rows become values, and queries of the first column.

use crate::calls::{numbers, ran_read};
use crate::rows::Note;
use crate::says::says;
use sqlx_query::*;
use sqlx_text::{Fault, OutOfMemory};
use std::alloc::Global;
use std::fmt::Debug;
use std::test::*;
use tests_database::steps::Call;
use tests_database::{Toy, ToyArguments};

// A query of one argument, that isn't kept and whose rows become values.
fn rows_as<O: FromRow<Toy> + Debug + Drop>(
    alloc: Global,
    call: Call,
    letters: &str,
) -> Result<String, OutOfMemory> {
    let query = query_as::<Toy, O, _>(alloc, "SELECT")?
        .bind(alloc, 1i64)
        .persistent(false);
    ran_read::<AsRows<O>>(alloc, letters, call, query)
}

// The same of the first column.
fn scalars(alloc: Global, call: Call, letters: &str) -> Result<String, OutOfMemory> {
    let query = query_scalar::<Toy, i64, _>(alloc, "SELECT")?
        .bind(alloc, 1i64)
        .persistent(false);
    ran_read::<AsScalars<i64>>(alloc, letters, call, query)
}

/// What is told of a text that is read as a number.
pub const MISMATCH: &str =
    "error occurred while decoding column 0: mismatched types; Rust type `i64` (as SQL type `BIGINT`) is not compatible with SQL type `TEXT`";

const REFUSED_BETWEEN: &str =
    "7|error occurred while decoding column 0: mismatched types; Rust type `i64` (as SQL type `BIGINT`) is not compatible with SQL type `TEXT`|7|";

const REFUSED: &str =
    "nothing: error occurred while encoding a value: out of range integral type conversion attempted";

#[test]
fn reads_columns(rt: HostRuntime) -> Result<(), Fail> {
    let alloc = rt.alloc();
    for (call, letters, given) in &[
        (Call::Execute, "lt2", "ToyQueryResult(2)"),
        (Call::Fetch, "ltl2", REFUSED_BETWEEN),
        (Call::FetchMany, "l2", "7|ToyQueryResult(2)|"),
        (Call::FetchAll, "ll", "[7, 7]"),
        (Call::FetchAll, "lt2", MISMATCH),
        (Call::FetchOptional, "lt2", "Some(7)"),
        (Call::FetchOptional, "2", "None"),
        (Call::FetchOne, "lt2", "7"),
        (Call::FetchOne, "tl", MISMATCH),
    ] {
        let want = format!(in alloc; "SELECT|1: {given}")?;
        let told = scalars(alloc, *call, letters);
        says(&rt, told, want.as_str())?;
    }
    Ok(())
}

#[test]
fn reads_rows(rt: HostRuntime) -> Result<(), Fail> {
    let alloc = rt.alloc();
    for (call, letters, given) in &[
        (Call::Fetch, "ll2", "(7,)|(7,)|"),
        (Call::FetchMany, "l2", "(7,)|ToyQueryResult(2)|"),
        (Call::FetchAll, "lt2", MISMATCH),
        (Call::FetchOne, "lt2", "(7,)"),
    ] {
        let want = format!(in alloc; "SELECT|1: {given}")?;
        let told = rows_as::<(i64,)>(alloc, *call, letters);
        says(&rt, told, want.as_str())?;
    }
    Ok(())
}

#[test]
fn reads_a_struct(rt: HostRuntime) -> Result<(), Fail> {
    for (letters, want) in &[
        (" lt", "SELECT|1: Note { number: 7, title: \"x\" }"),
        (
            " l",
            "SELECT|1: column index out of bounds: the len is 1, but the index is 1",
        ),
    ] {
        let told = rows_as::<Note>(rt.alloc(), Call::FetchOne, letters);
        says(&rt, told, want)?;
    }
    Ok(())
}

// What a query takes its arguments from: an argument list, an answer with one, or an answer with a fault.
#[derive(Clone, Copy)]
enum Source {
    Arguments,
    Answer,
    Fault,
}

// Such an answer.
fn answer(alloc: Global, source: Source) -> Result<ToyArguments, Fault> {
    match source {
        Source::Arguments => numbers(alloc, &[6]),
        Source::Answer => numbers(alloc, &[7]),
        Source::Fault => Err(Fault::OutOfRange),
    }
}

// A row that becomes a value, by a query with such arguments.
fn row_with(alloc: Global, source: Source) -> Result<String, Fault> {
    let answer = answer(alloc, source);
    let query = match source {
        Source::Arguments => query_as_with::<Toy, (i64,), _, _>(alloc, "SELECT", answer?)?,
        _ => query_as_with_result::<Toy, (i64,), _, _>(alloc, "SELECT", answer)?,
    };
    Ok(ran_read(alloc, "l", Call::FetchOne, query)?)
}

// The first column of a row, by a query with such arguments.
fn scalar_with(alloc: Global, source: Source) -> Result<String, Fault> {
    let answer = answer(alloc, source);
    let query = match source {
        Source::Arguments => query_scalar_with::<Toy, i64, _, _>(alloc, "SELECT", answer?)?,
        _ => query_scalar_with_result::<Toy, i64, _, _>(alloc, "SELECT", answer)?,
    };
    Ok(ran_read(alloc, "l", Call::FetchOne, query)?)
}

#[test]
fn reads_with_arguments(rt: HostRuntime) -> Result<(), Fail> {
    let alloc = rt.alloc();
    for (source, row, column) in &[
        (Source::Arguments, "SELECT kept|6: (7,)", "SELECT kept|6: 7"),
        (Source::Answer, "SELECT kept|7: (7,)", "SELECT kept|7: 7"),
        (Source::Fault, REFUSED, REFUSED),
    ] {
        let told = row_with(alloc, *source);
        says(&rt, told, row)?;
        let told = scalar_with(alloc, *source);
        says(&rt, told, column)?;
    }
    Ok(())
}
