//! The seven running calls of a query and of a raw text, and what a query takes its arguments from.

use crate::calls::{ToyQuery, numbers, ran, ran_raw};
use crate::says::says;
use sqlx_query::{query, query_with, query_with_result, raw_sql};
use sqlx_text::{Fault, OutOfMemory};
use std::alloc::Global;
use std::test::*;
use tests_database::Toy;
use tests_database::steps::Call;

// A query of two arguments that is run.
fn bound(alloc: Global, call: Call, letters: &str) -> Result<String, OutOfMemory> {
    let query = query::<Toy, _>(alloc, "SELECT")?;
    let query = query.bind(alloc, 1i64).bind(alloc, "x");
    ran(alloc, letters, call, query)
}

// Statements that are run as they stand.
fn raw(alloc: Global, call: Call, letters: &str) -> Result<String, OutOfMemory> {
    ran_raw(alloc, letters, call, raw_sql(alloc, "DELETE; SELECT")?)
}

#[test]
fn runs_queries_and_raw_texts(rt: HostRuntime) -> Result<(), Fail> {
    let alloc = rt.alloc();
    for (call, letters, given) in &[
        (Call::Execute, "2t3", "ToyQueryResult(5)"),
        (
            Call::ExecuteMany,
            "2t3",
            "ToyQueryResult(2)|ToyQueryResult(3)|",
        ),
        (Call::Fetch, "t2l", "text|large|"),
        (Call::FetchMany, "t2", "text|ToyQueryResult(2)|"),
        (Call::FetchAll, "lt2", "large|text|"),
        (Call::FetchOptional, "2t", "text"),
        (Call::FetchOptional, "2", "none"),
        (Call::FetchOne, "lt2", "large"),
        (
            Call::FetchOne,
            "2",
            "no rows returned by a query that expected to return at least one row",
        ),
    ] {
        let want = format!(in alloc; "SELECT kept|1|x: {given}")?;
        let told = bound(alloc, *call, letters);
        says(&rt, told, want.as_str())?;
        let want = format!(in alloc; "DELETE; SELECT bare: {given}")?;
        let told = raw(alloc, *call, letters);
        says(&rt, told, want.as_str())?;
    }
    Ok(())
}

// What a query takes its arguments from.
#[derive(Clone, Copy)]
enum From {
    Arguments,
    Answer,
    Tried,
}

// A query that isn't kept, with an argument that is tried.
fn unkept(alloc: Global) -> Result<ToyQuery<'static>, Fault> {
    let mut query = query::<Toy, _>(alloc, "UPDATE")?.persistent(false);
    match query.try_bind(alloc, 9i64) {
        Ok(()) => Ok(query),
        Err(fault) => {
            drop(query);
            Err(fault)
        }
    }
}

fn update(alloc: Global, from: From) -> Result<ToyQuery<'static>, Fault> {
    match from {
        From::Arguments => {
            let arguments = numbers(alloc, &[6, 7])?;
            Ok(query_with::<Toy, _, _>(alloc, "UPDATE", arguments)?)
        }
        From::Answer => {
            let answer = numbers(alloc, &[8]);
            Ok(query_with_result::<Toy, _, _>(alloc, "UPDATE", answer)?)
        }
        From::Tried => unkept(alloc),
    }
}

fn updated(alloc: Global, from: From) -> Result<String, Fault> {
    let query = update(alloc, from)?;
    Ok(ran(alloc, "1", Call::Execute, query)?)
}

#[test]
fn queries_have_their_arguments(rt: HostRuntime) -> Result<(), Fail> {
    for (from, want) in &[
        (From::Arguments, "UPDATE kept|6|7: ToyQueryResult(1)"),
        (From::Answer, "UPDATE kept|8: ToyQueryResult(1)"),
        (From::Tried, "UPDATE|9: ToyQueryResult(1)"),
    ] {
        says(&rt, updated(rt.alloc(), *from), want)?;
    }
    Ok(())
}
