//! Queries whose rows are mapped.

use crate::calls::{ToyQuery, ran_map};
use crate::read::MISMATCH;
use crate::says::says;
use sqlx_query::query;
use sqlx_text::{Error, Fault, OutOfMemory};
use sqlx_traits::*;
use std::alloc::Global;
use std::test::*;
use tests_database::steps::Call;
use tests_database::{Toy, ToyRow};

const REFUSED_BEHIND: &str =
    "7|error occurred while decoding column 0: mismatched types; Rust type `i64` (as SQL type `BIGINT`) is not compatible with SQL type `TEXT`|";

// The number in a row's first column.
fn number(alloc: Global, row: ToyRow) -> Result<i64, Error> {
    let read = row.try_get::<i64, usize>(alloc, 0);
    drop(row);
    read
}

// The number in a row, and -1 where it has none.
fn shown(alloc: Global, row: ToyRow) -> i64 {
    match number(alloc, row) {
        Ok(number) => number,
        Err(error) => {
            drop(error);
            -1
        }
    }
}

// Refuses what is below zero.
fn whole(number: i64) -> Result<i64, Error> {
    if number < 0 {
        Err(Error::Decode(Fault::OutOfRange))
    } else {
        Ok(number)
    }
}

fn select(alloc: Global) -> Result<ToyQuery<'static>, OutOfMemory> {
    Ok(query::<Toy, _>(alloc, "SELECT")?.bind(alloc, 1i64))
}

// The rows of a query, each as its number, or as -1.
fn mapped(alloc: Global, call: Call, letters: &str) -> Result<String, OutOfMemory> {
    let map = select(alloc)?
        .persistent(false)
        .map(move |row: ToyRow| shown(alloc, row));
    ran_map(alloc, letters, call, map)
}

// The rows of a query, each as its number, or refused.
fn tried(alloc: Global, call: Call, letters: &str) -> Result<String, OutOfMemory> {
    let map = select(alloc)?.try_map(move |row: ToyRow| number(alloc, row));
    ran_map(alloc, letters, call, map)
}

#[test]
fn maps_rows(rt: HostRuntime) -> Result<(), Fail> {
    for (call, letters, want) in &[
        (Call::Execute, "lt2", "SELECT|1: ToyQueryResult(2)"),
        (Call::Fetch, "lt2", "SELECT|1: 7|-1|"),
        (Call::FetchMany, "2l", "SELECT|1: ToyQueryResult(2)|7|"),
        (Call::FetchAll, "lt2", "SELECT|1: [7, -1]"),
        (Call::FetchOptional, "2", "SELECT|1: None"),
        (Call::FetchOne, "tl", "SELECT|1: -1"),
    ] {
        let told = mapped(rt.alloc(), *call, letters);
        says(&rt, told, want)?;
    }
    Ok(())
}

#[test]
fn a_refused_row_is_the_last(rt: HostRuntime) -> Result<(), Fail> {
    let alloc = rt.alloc();
    for (call, letters, given) in &[
        (Call::FetchOne, "lt", "7"),
        (Call::FetchOptional, "lt", "Some(7)"),
        (Call::FetchAll, "ltl", MISMATCH),
        (Call::FetchOne, "t", MISMATCH),
        (Call::Fetch, "ltl", REFUSED_BEHIND),
    ] {
        let want = format!(in alloc; "SELECT kept|1: {given}")?;
        let told = tried(alloc, *call, letters);
        says(&rt, told, want.as_str())?;
    }
    Ok(())
}

// The rows of a query, each as whether its number is above zero.
fn mapped_twice(alloc: Global) -> Result<String, OutOfMemory> {
    let map = select(alloc)?
        .persistent(false)
        .map(move |row: ToyRow| shown(alloc, row))
        .map(|number: i64| number > 0);
    ran_map(alloc, "lt", Call::FetchAll, map)
}

// The rows of a query, each as its number, which is refused below zero.
fn tried_behind(alloc: Global) -> Result<String, OutOfMemory> {
    let map = select(alloc)?
        .map(move |row: ToyRow| shown(alloc, row))
        .try_map(|number: i64| whole(number));
    ran_map(alloc, "lt", Call::Fetch, map)
}

#[test]
fn maps_what_was_mapped(rt: HostRuntime) -> Result<(), Fail> {
    let alloc = rt.alloc();
    let told = mapped_twice(alloc);
    says(&rt, told, "SELECT|1: [true, false]")?;
    says(
        &rt,
        tried_behind(alloc),
        "SELECT kept|1: 7|error occurred while decoding: out of range integral type conversion attempted|",
    )
}
