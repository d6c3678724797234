//! What each call that runs a query gives of it at the toy database, and what the connection was asked, as a text.
ghost use Rattle.std.specs.Iterator.{IsFinite};

use sqlx_query::{Map, Mapper, Query, RawSql, ReadQuery, Reader};
use sqlx_text::{Error, Fault, OutOfMemory};
use sqlx_traits::*;
use std::alloc::Global;
use std::fmt::Debug;
use tests_database::answers::{ByDebug, shown, told};
use tests_database::letters::row_of;
use tests_database::steps::*;
use tests_database::{Toy, ToyArguments, ToyConnection, ToyRow};

/// A query of the toy database.
pub type ToyQuery<'q> = Query<'q, Toy, ToyArguments>;

// A connection that hands out the steps of letters; letters behind a space are the columns of one row.
fn by_letters(alloc: Global, letters: &str) -> Result<ToyConnection, OutOfMemory> {
    let mut rest = letters.chars();
    match rest.next() {
        Some(' ') => ToyConnection::of_row(alloc, row_of(alloc, rest.as_str())?),
        _ => ToyConnection::new(alloc, letters),
    }
}

// The ways in which answers are told, each for all that is told so.

fn results(alloc: Global, all: ExecuteMany<Toy>) -> Result<String, OutOfMemory> {
    told_each::<_, ByDebug, _>(alloc, all)
}

fn rows(alloc: Global, all: Fetch<Toy>) -> Result<String, OutOfMemory> {
    told_each::<_, Named<Toy>, _>(alloc, all)
}

fn steps(alloc: Global, all: FetchMany<Toy>) -> Result<String, OutOfMemory> {
    told_each::<_, Step<Named<Toy>>, _>(alloc, all)
}

fn all_rows(alloc: Global, all: Result<Vec<ToyRow>, Error>) -> Result<String, OutOfMemory> {
    told::<_, All<Named<Toy>>>(alloc, all)
}

fn maybe_row(alloc: Global, row: Result<Option<ToyRow>, Error>) -> Result<String, OutOfMemory> {
    told::<_, Maybe<Named<Toy>>>(alloc, row)
}

/// A row, by the name of its first column.
pub fn one_row(alloc: Global, row: Result<ToyRow, Error>) -> Result<String, OutOfMemory> {
    told::<_, Named<Toy>>(alloc, row)
}

fn values<T: Debug + Drop, I: Iterator<Item = Result<T, Error>> + Drop>(
    alloc: Global,
    items: I,
) -> Result<String, OutOfMemory>
    requires can { I.can_next items }
    requires ends { IsFinite (I.remaining items) }
{
    told_each::<_, ByDebug, _>(alloc, items)
}

fn value_steps<
    Q: Debug + Drop,
    T: Debug + Drop,
    I: Iterator<Item = Result<Either<Q, T>, Error>> + Drop,
>(alloc: Global, items: I) -> Result<String, OutOfMemory>
    requires can { I.can_next items }
    requires ends { IsFinite (I.remaining items) }
{
    told_each::<_, Step<ByDebug>, _>(alloc, items)
}

fn all_values<T: Debug + Drop>(
    alloc: Global,
    all: Result<Vec<T>, Error>,
) -> Result<String, OutOfMemory> {
    shown(alloc, all)
}

fn maybe_value<T: Debug + Drop>(
    alloc: Global,
    value: Result<Option<T>, Error>,
) -> Result<String, OutOfMemory> {
    shown(alloc, value)
}

// What a call gives of a query.
fn of_query(
    alloc: Global,
    call: Call,
    query: ToyQuery<'_>,
    conn: &mut ToyConnection,
) -> Result<String, OutOfMemory> {
    match call {
        Call::Execute => shown(alloc, query.execute(alloc, conn)),
        Call::ExecuteMany => results(alloc, query.execute_many(alloc, conn)),
        Call::Fetch => rows(alloc, query.fetch(alloc, conn)),
        Call::FetchMany => steps(alloc, query.fetch_many(alloc, conn)),
        Call::FetchAll => all_rows(alloc, query.fetch_all(alloc, conn)),
        Call::FetchOptional => maybe_row(alloc, query.fetch_optional(alloc, conn)),
        Call::FetchOne => one_row(alloc, query.fetch_one(alloc, conn)),
    }
}

// What a call gives of statements that are run as they stand.
fn of_raw(
    alloc: Global,
    call: Call,
    raw: RawSql,
    conn: &mut ToyConnection,
) -> Result<String, OutOfMemory> {
    match call {
        Call::Execute => shown(alloc, raw.execute::<Toy, _>(alloc, conn)),
        Call::ExecuteMany => results(alloc, raw.execute_many::<Toy, _>(alloc, conn)),
        Call::Fetch => rows(alloc, raw.fetch::<Toy, _>(alloc, conn)),
        Call::FetchMany => steps(alloc, raw.fetch_many::<Toy, _>(alloc, conn)),
        Call::FetchAll => all_rows(alloc, raw.fetch_all::<Toy, _>(alloc, conn)),
        Call::FetchOptional => maybe_row(alloc, raw.fetch_optional::<Toy, _>(alloc, conn)),
        Call::FetchOne => one_row(alloc, raw.fetch_one::<Toy, _>(alloc, conn)),
    }
}

// What a call gives of a query whose rows are read as values; `Execute` is the executor's own.
fn of_read<M: Reader<Toy>>(
    alloc: Global,
    call: Call,
    query: ReadQuery<'_, Toy, M, ToyArguments>,
    conn: &mut ToyConnection,
) -> Result<String, OutOfMemory>
where
    M::Out: Debug,
{
    match call {
        Call::Fetch => values(alloc, query.fetch(alloc, conn)),
        Call::FetchMany => value_steps(alloc, query.fetch_many(alloc, conn)),
        Call::FetchAll => all_values(alloc, query.fetch_all(alloc, conn)),
        Call::FetchOptional => maybe_value(alloc, query.fetch_optional(alloc, conn)),
        Call::FetchOne => shown(alloc, query.fetch_one(alloc, conn)),
        _ => shown(alloc, conn.execute(alloc, query)),
    }
}

// What a call gives of a query whose rows are mapped; `Execute` is the executor's own.
fn of_map<F: Mapper<ToyRow>>(
    alloc: Global,
    call: Call,
    query: Map<'_, Toy, F, ToyArguments>,
    conn: &mut ToyConnection,
) -> Result<String, OutOfMemory>
where
    F::Out: Debug,
    requires { F.ready query.mapper }
{
    match call {
        Call::Fetch => values(alloc, query.fetch(alloc, conn)),
        Call::FetchMany => value_steps(alloc, query.fetch_many(alloc, conn)),
        Call::FetchAll => all_values(alloc, query.fetch_all(alloc, conn)),
        Call::FetchOptional => maybe_value(alloc, query.fetch_optional(alloc, conn)),
        Call::FetchOne => shown(alloc, query.fetch_one(alloc, conn)),
        _ => shown(alloc, conn.execute(alloc, query)),
    }
}

/// What a connection was asked, and what came of it.
pub fn asked(
    alloc: Global,
    conn: ToyConnection,
    given: Result<String, OutOfMemory>,
) -> Result<String, OutOfMemory> {
    let asked = conn.asked_shown(alloc);
    drop(conn);
    joined(alloc, asked, ": ", given)
}

/// Two texts, and what stands between them.
pub fn joined(
    alloc: Global,
    first: Result<String, OutOfMemory>,
    between: &str,
    second: Result<String, OutOfMemory>,
) -> Result<String, OutOfMemory> {
    let (first, second) = (first?, second?);
    Ok(format!(in alloc; "{first}{between}{second}")?)
}

/// What a connection is asked by a query that runs, and what comes of the steps by letters.
pub fn ran(
    alloc: Global,
    letters: &str,
    call: Call,
    query: ToyQuery<'_>,
) -> Result<String, OutOfMemory> {
    match by_letters(alloc, letters) {
        Ok(mut conn) => {
            let given = of_query(alloc, call, query, &mut conn);
            asked(alloc, conn, given)
        }
        Err(want) => {
            drop(query);
            Err(want)
        }
    }
}

/// The same of statements that are run as they stand.
pub fn ran_raw(
    alloc: Global,
    letters: &str,
    call: Call,
    raw: RawSql,
) -> Result<String, OutOfMemory> {
    match by_letters(alloc, letters) {
        Ok(mut conn) => {
            let given = of_raw(alloc, call, raw, &mut conn);
            asked(alloc, conn, given)
        }
        Err(want) => {
            drop(raw);
            Err(want)
        }
    }
}

/// The same of a query whose rows are read as values.
pub fn ran_read<M: Reader<Toy>>(
    alloc: Global,
    letters: &str,
    call: Call,
    query: ReadQuery<'_, Toy, M, ToyArguments>,
) -> Result<String, OutOfMemory>
where
    M::Out: Debug,
{
    match by_letters(alloc, letters) {
        Ok(mut conn) => {
            let given = of_read::<M>(alloc, call, query, &mut conn);
            asked(alloc, conn, given)
        }
        Err(want) => {
            drop(query);
            Err(want)
        }
    }
}

/// The same of a query whose rows are mapped.
pub fn ran_map<F: Mapper<ToyRow>>(
    alloc: Global,
    letters: &str,
    call: Call,
    query: Map<'_, Toy, F, ToyArguments>,
) -> Result<String, OutOfMemory>
where
    F::Out: Debug,
    requires { F.ready query.mapper }
{
    match by_letters(alloc, letters) {
        Ok(mut conn) => {
            let given = of_map::<F>(alloc, call, query, &mut conn);
            asked(alloc, conn, given)
        }
        Err(want) => {
            drop(query);
            Err(want)
        }
    }
}

/// Arguments that are these numbers.
pub fn numbers(alloc: Global, numbers: &[i64]) -> Result<ToyArguments, Fault> {
    let mut args = ToyArguments::new(alloc);
    for number in numbers {
        if let Err(fault) = args.add(alloc, *number) {
            drop(args);
            return Err(fault);
        }
    }
    Ok(args)
}
