//! Arguments that can't be encoded: what a query says of them, and that nothing is run. The toy database refuses truth values.

use crate::calls::{ToyQuery, joined, ran, ran_read};
use crate::says::says;
use sqlx_query::*;
use sqlx_text::{Fault, OutOfMemory};
use std::alloc::Global;
use std::test::*;
use tests_database::answers::taken;
use tests_database::steps::Call;
use tests_database::{Toy, ToyArguments};

const FIRST_REFUSED: &str =
    "nothing: error occurred while encoding a value: Encoding argument $1 failed: out of range integral type conversion attempted";

const FIRST_REFUSED_ALONE: &str =
    "nothing: error occurred while encoding a value: Encoding argument $1 failed: out of range integral type conversion attempted|";

// Which arguments a query has; truth values are refused.
#[derive(Clone, Copy)]
enum Flags {
    FlagNumberFlag,
    NumberFlag,
}

fn select(alloc: Global, flags: Flags) -> Result<ToyQuery<'static>, OutOfMemory> {
    let query = query::<Toy, _>(alloc, "SELECT")?;
    Ok(match flags {
        Flags::FlagNumberFlag => query.bind(alloc, true).bind(alloc, 7i64).bind(alloc, false),
        Flags::NumberFlag => query.bind(alloc, 7i64).bind(alloc, true),
    })
}

fn bound(alloc: Global, call: Call, flags: Flags) -> Result<String, OutOfMemory> {
    let query = select(alloc, flags)?;
    ran(alloc, "t2", call, query)
}

#[test]
fn tells_the_first_fault(rt: HostRuntime) -> Result<(), Fail> {
    let alloc = rt.alloc();
    for (call, refused, want) in &[
        (Call::Execute, Flags::FlagNumberFlag, FIRST_REFUSED),
        (Call::FetchAll, Flags::FlagNumberFlag, FIRST_REFUSED),
        (Call::FetchOptional, Flags::FlagNumberFlag, FIRST_REFUSED),
        (Call::Fetch, Flags::FlagNumberFlag, FIRST_REFUSED_ALONE),
        (Call::FetchMany, Flags::FlagNumberFlag, FIRST_REFUSED_ALONE),
        (
            Call::ExecuteMany,
            Flags::FlagNumberFlag,
            FIRST_REFUSED_ALONE,
        ),
        (
            Call::Execute,
            Flags::NumberFlag,
            "nothing: error occurred while encoding a value: Encoding argument $2 failed: out of range integral type conversion attempted",
        ),
    ] {
        let told = bound(alloc, *call, *refused);
        says(&rt, told, want)?;
    }
    Ok(())
}

// A query of an argument to which another is tried.
fn tried(alloc: Global) -> Result<String, OutOfMemory> {
    let mut query = query::<Toy, _>(alloc, "SELECT")?.bind(alloc, 9i64);
    let answer = query.try_bind(alloc, true);
    let asked = ran(alloc, "t2", Call::Execute, query);
    joined(alloc, taken(alloc, answer), ", ", asked)
}

// An argument that is tried behind a refused one.
fn tried_behind_a_fault(alloc: Global) -> Result<String, OutOfMemory> {
    let mut query = query::<Toy, _>(alloc, "SELECT")?.bind(alloc, true);
    let answer = query.try_bind(alloc, 8i64);
    drop(query);
    taken(alloc, answer)
}

fn of_scalar(alloc: Global) -> Result<String, OutOfMemory> {
    let query = query_scalar::<Toy, i64, _>(alloc, "SELECT")?.bind(alloc, true);
    ran_read::<AsScalars<i64>>(alloc, "l", Call::FetchOne, query)
}

fn with(alloc: Global) -> Result<String, OutOfMemory> {
    let given: Result<ToyArguments, Fault> = Err(Fault::OutOfRange);
    let query = query_with_result::<Toy, _, _>(alloc, "INSERT", given)?;
    ran(alloc, "t2", Call::Execute, query)
}

// What is told of a fault.
#[derive(Clone, Copy)]
enum Told {
    Tried,
    TriedBehind,
    Scalar,
    Given,
}

fn told_of(alloc: Global, told: Told) -> Result<String, OutOfMemory> {
    match told {
        Told::Tried => tried(alloc),
        Told::TriedBehind => tried_behind_a_fault(alloc),
        Told::Scalar => of_scalar(alloc),
        Told::Given => with(alloc),
    }
}

#[test]
fn faults_are_told(rt: HostRuntime) -> Result<(), Fail> {
    for (told, want) in &[
        (
            Told::Tried,
            "out of range integral type conversion attempted, SELECT kept|9: ToyQueryResult(2)",
        ),
        (
            Told::TriedBehind,
            "A previous call to Query::bind produced an error",
        ),
        (Told::Scalar, FIRST_REFUSED),
        (
            Told::Given,
            "nothing: error occurred while encoding a value: out of range integral type conversion attempted",
        ),
    ] {
        says(&rt, told_of(rt.alloc(), *told), want)?;
    }
    Ok(())
}
