//! Statements that are built piece by piece, with the numbered placeholders of the toy database, and what is asked of them.
ghost use Rattle.std.specs.Prelude.{◌≡◌, Bool, IfOk, length, take};
ghost use Rattle.tests_queries.specs.Callers.{RowAppends};

use crate::callers::with_notes;
use crate::calls::{joined, numbers, ran, ran_read};
use crate::says::says;
use sqlx_query::{AsRows, AsScalars, QueryBuilder, placeholders_are_arguments};
use sqlx_text::{Fault, OutOfMemory};
use sqlx_traits::*;
use std::alloc::Global;
use std::test::*;
use tests_database::Toy;
use tests_database::answers::taken;
use tests_database::steps::Call;

// A builder of one argument.
fn started(alloc: Global) -> Result<QueryBuilder<Toy>, Fault>
    ensures { IfOk result (λ builder. builder.built ≡ Bool.false) }
{
    let args = numbers(alloc, &[9])?;
    match "SELECT $1".to_string(alloc) {
        Ok(init) => Ok(QueryBuilder::with_arguments(alloc, init, args)),
        Err(want) => {
            drop(args);
            Err(want.into())
        }
    }
}

// What is asked of the query that is built, and what comes of it.
fn run(alloc: Global, builder: &mut QueryBuilder<Toy>) -> Result<String, OutOfMemory> {
    if builder.is_built() {
        return Ok("built".to_string(alloc)?);
    }
    let query = builder.build(alloc)?;
    ran(alloc, "2", Call::Execute, query)
}

// Pieces by calls that chain.
fn chained(alloc: Global, builder: &mut QueryBuilder<Toy>) -> Result<(), Fault>
    requires { builder.old.built ≡ Bool.false }
{
    builder
        .push(alloc, " WHERE a = ")?
        .push_bind(alloc, "x")?
        .push(alloc, " LIMIT ")?
        .push_display(alloc, &30u8)?;
    Ok(())
}

// The same pieces by calls that don't.
fn tried(alloc: Global, builder: &mut QueryBuilder<Toy>) -> Result<(), Fault>
    requires { builder.old.built ≡ Bool.false }
{
    builder.try_push(alloc, " WHERE a = ")?;
    builder.try_push_bind(alloc, "x")?;
    builder.try_push(alloc, " LIMIT ")?;
    builder.try_push_display(alloc, &30u8)?;
    Ok(())
}

// A list of texts and of values; a refused value leaves no separator.
fn listed(alloc: Global, builder: &mut QueryBuilder<Toy>) -> Result<(), Fault>
    requires { builder.old.built ≡ Bool.false }
{
    let mut list = builder.separated(",");
    list.push_unseparated(alloc, " IN (")?;
    list.push(alloc, "a")?;
    list.push_bind(alloc, 5i64)?;
    drop(list.push_bind(alloc, true));
    list.push_bind(alloc, 6i64)?;
    list.push_bind_unseparated(alloc, 7i64)?;
    list.push_unseparated(alloc, ")")?;
    drop(list);
    Ok(())
}

// So many of two pairs.
fn two_pairs(alloc: Global, count: usize) -> Result<Vec<(i64, &'static str)>, OutOfMemory> {
    let mut pairs = vec![in alloc; (1, "x"), (2, "y")]?;
    pairs.truncate(count);
    Ok(pairs)
}

fn tuples(
    alloc: Global,
    builder: &mut QueryBuilder<Toy>,
    pairs: Vec<(i64, &'static str)>,
) -> Result<(), Fault>
    requires { builder.old.built ≡ Bool.false }
{
    builder.push_tuples(
        alloc,
        pairs.into_iter(),
        |row, pair| -> Result<(), Fault>
            ensures { RowAppends length take (λ args. args.list) row.old.parts row.new.parts }
        {
            row.push(alloc, "-")?;
            row.push_bind_unseparated(alloc, pair.0)?;
            row.push_unseparated(alloc, "%")?;
            row.push_bind(alloc, pair.1)
        },
    )?;
    Ok(())
}

fn refused_values(
    alloc: Global,
    builder: &mut QueryBuilder<Toy>,
    pairs: Vec<(i64, &'static str)>,
) -> Result<(), Fault>
    requires { builder.old.built ≡ Bool.false }
{
    builder.try_push_values(
        alloc,
        pairs.into_iter(),
        |row, pair| -> Result<(), Fault>
            ensures { RowAppends length take (λ args. args.list) row.old.parts row.new.parts }
        {
            row.push_bind(alloc, pair.0)?;
            row.push_bind(alloc, pair.1)?;
            row.push_bind(alloc, true)
        },
    )
}

fn refused_tuples(
    alloc: Global,
    builder: &mut QueryBuilder<Toy>,
    pairs: Vec<(i64, &'static str)>,
) -> Result<(), Fault>
    requires { builder.old.built ≡ Bool.false }
{
    builder.try_push_tuples(
        alloc,
        pairs.into_iter(),
        |row, pair| -> Result<(), Fault>
            ensures { RowAppends length take (λ args. args.list) row.old.parts row.new.parts }
        {
            row.push_bind(alloc, pair.0)?;
            row.push_bind(alloc, pair.1)?;
            row.push_bind(alloc, true)
        },
    )
}

// The same by the call that gives the builder back.
fn refused_pushed_values(
    alloc: Global,
    builder: &mut QueryBuilder<Toy>,
    pairs: Vec<(i64, &'static str)>,
) -> Result<(), Fault>
    requires { builder.old.built ≡ Bool.false }
{
    builder.push_values(
        alloc,
        pairs.into_iter(),
        |row, pair| -> Result<(), Fault>
            ensures { RowAppends length take (λ args. args.list) row.old.parts row.new.parts }
        {
            row.push_bind(alloc, pair.0)?;
            row.push_bind(alloc, pair.1)?;
            row.push_bind(alloc, true)
        },
    )?;
    Ok(())
}

fn refused_pushed_tuples(
    alloc: Global,
    builder: &mut QueryBuilder<Toy>,
    pairs: Vec<(i64, &'static str)>,
) -> Result<(), Fault>
    requires { builder.old.built ≡ Bool.false }
{
    builder.push_tuples(
        alloc,
        pairs.into_iter(),
        |row, pair| -> Result<(), Fault>
            ensures { RowAppends length take (λ args. args.list) row.old.parts row.new.parts }
        {
            row.push_bind(alloc, pair.0)?;
            row.push_bind(alloc, pair.1)?;
            row.push_bind(alloc, true)
        },
    )?;
    Ok(())
}

fn refused_pushed_value(alloc: Global, builder: &mut QueryBuilder<Toy>) -> Result<(), Fault>
    requires { builder.old.built ≡ Bool.false }
{
    builder.push(alloc, "")?.push_bind(alloc, true)?;
    Ok(())
}

// What is pushed: pieces, lists of so many pairs, and what is refused.
#[derive(Clone, Copy)]
enum Piece {
    Chained,
    Tried,
    Listed,
    Values(usize),
    Tuples(usize),
    RefusedValue,
    RefusedValues,
    RefusedTuples,
    RefusedPushedValue,
    RefusedPushedValues,
    RefusedPushedTuples,
}

fn push(alloc: Global, builder: &mut QueryBuilder<Toy>, push: Piece) -> Result<(), Fault>
    requires { builder.old.built ≡ Bool.false }
{
    match push {
        Piece::Chained => chained(alloc, builder),
        Piece::Tried => tried(alloc, builder),
        Piece::Listed => listed(alloc, builder),
        Piece::Values(count) => with_notes::<Toy, i64>(alloc, builder, two_pairs(alloc, count)?),
        Piece::Tuples(count) => tuples(alloc, builder, two_pairs(alloc, count)?),
        Piece::RefusedValue => builder.try_push_bind(alloc, true),
        Piece::RefusedValues => refused_values(alloc, builder, two_pairs(alloc, 2)?),
        Piece::RefusedTuples => refused_tuples(alloc, builder, two_pairs(alloc, 2)?),
        Piece::RefusedPushedValue => refused_pushed_value(alloc, builder),
        Piece::RefusedPushedValues => refused_pushed_values(alloc, builder, two_pairs(alloc, 2)?),
        Piece::RefusedPushedTuples => refused_pushed_tuples(alloc, builder, two_pairs(alloc, 2)?),
    }
}

// What is said of a push, and what is asked of the query that is built then.
fn pushed(alloc: Global, what: Piece) -> Result<String, Fault> {
    let mut builder = started(alloc)?;
    let answer = push(alloc, &mut builder, what);
    let asked = run(alloc, &mut builder);
    drop(builder);
    Ok(joined(alloc, taken(alloc, answer), "; ", asked)?)
}

const PIECES: &str = "taken; SELECT $1 WHERE a = $2 LIMIT 30 kept|9|x: ToyQueryResult(2)";

const REFUSED: &str =
    "out of range integral type conversion attempted; SELECT $1 kept|9: ToyQueryResult(2)";

#[test]
fn pushes_pieces(rt: HostRuntime) -> Result<(), Fail> {
    for (push, want) in &[
        (Piece::Chained, PIECES),
        (Piece::Tried, PIECES),
        (
            Piece::Listed,
            "taken; SELECT $1 IN (a,$2,$3$4) kept|9|5|6|7: ToyQueryResult(2)",
        ),
        (
            Piece::Values(2),
            "taken; SELECT $1VALUES ($2, $3), ($4, $5) kept|9|1|x|2|y: ToyQueryResult(2)",
        ),
        (
            Piece::Values(0),
            "taken; SELECT $1VALUES  kept|9: ToyQueryResult(2)",
        ),
        (
            Piece::Tuples(2),
            "taken; SELECT $1 ((-$2%, $3), (-$4%, $5))  kept|9|1|x|2|y: ToyQueryResult(2)",
        ),
        (
            Piece::Tuples(0),
            "taken; SELECT $1 ()  kept|9: ToyQueryResult(2)",
        ),
        (Piece::RefusedValue, REFUSED),
        (Piece::RefusedValues, REFUSED),
        (Piece::RefusedTuples, REFUSED),
        (Piece::RefusedPushedValue, REFUSED),
        (Piece::RefusedPushedValues, REFUSED),
        (Piece::RefusedPushedTuples, REFUSED),
    ] {
        let told = pushed(rt.alloc(), *push);
        says(&rt, told, want)?;
    }
    Ok(())
}

fn built_as(alloc: Global, builder: QueryBuilder<Toy>) -> Result<String, OutOfMemory>
    requires { builder.built ≡ Bool.false }
{
    let mut builder = builder;
    let query = builder.build_query_as::<(i64,)>(alloc);
    drop(builder);
    ran_read::<AsRows<(i64,)>>(alloc, "l", Call::FetchOne, query?)
}

fn built_scalar(alloc: Global, builder: QueryBuilder<Toy>) -> Result<String, OutOfMemory>
    requires { builder.built ≡ Bool.false }
{
    let mut builder = builder;
    let query = builder.build_query_scalar::<i64>(alloc);
    drop(builder);
    ran_read::<AsScalars<i64>>(alloc, "l", Call::FetchOne, query?)
}

// A builder is run twice, and begun again between.
fn run_twice(alloc: Global, builder: &mut QueryBuilder<Toy>) -> Result<String, OutOfMemory> {
    let first = run(alloc, builder);
    let between = if builder.is_built() {
        "; built; "
    } else {
        "; "
    };
    let again = run(alloc, builder.reset(alloc));
    joined(alloc, first, between, again)
}

// The same of a builder of one argument.
fn built_anew(alloc: Global, builder: QueryBuilder<Toy>) -> Result<String, OutOfMemory> {
    let mut builder = builder;
    let twice = run_twice(alloc, &mut builder);
    joined(alloc, twice, "; ", Ok(builder.into_string()))
}

// The text of a builder, in two ways.
fn texts(alloc: Global, builder: QueryBuilder<Toy>) -> Result<String, OutOfMemory> {
    let sql = builder.sql(alloc);
    let same = builder.into_sql();
    let sql = sql?;
    Ok(format!(in alloc; "{sql:?} {same:?}")?)
}

// A builder without arguments, to which one is bound.
fn begun(alloc: Global) -> Result<QueryBuilder<Toy>, Fault> {
    let mut builder = QueryBuilder::<Toy>::new(alloc, "SELECT".to_string(alloc)?);
    match builder.try_push_bind(alloc, 1i64) {
        Ok(()) => Ok(builder),
        Err(fault) => {
            drop(builder);
            Err(fault)
        }
    }
}

// What a builder of one argument becomes, and what one without.
#[derive(Clone, Copy)]
enum Use {
    As,
    Scalar,
    Anew,
    Texts,
    Begun,
}

fn used(alloc: Global, what: Use) -> Result<String, Fault> {
    let told = match what {
        Use::As => built_as(alloc, started(alloc)?),
        Use::Scalar => built_scalar(alloc, started(alloc)?),
        Use::Anew => built_anew(alloc, started(alloc)?),
        Use::Texts => texts(alloc, started(alloc)?),
        Use::Begun => built_anew(alloc, begun(alloc)?),
    };
    Ok(told?)
}

#[test]
fn builds_queries(rt: HostRuntime) -> Result<(), Fail> {
    placeholders_are_arguments::<Toy>();
    for (what, want) in &[
        (Use::As, "SELECT $1 kept|9: (7,)"),
        (Use::Scalar, "SELECT $1 kept|9: 7"),
        (
            Use::Anew,
            "SELECT $1 kept|9: ToyQueryResult(2); built; SELECT $1 kept: ToyQueryResult(2); SELECT $1",
        ),
        (
            Use::Texts,
            "SqlStr { text: \"SELECT $1\" } SqlStr { text: \"SELECT $1\" }",
        ),
        (
            Use::Begun,
            "SELECT$1 kept|1: ToyQueryResult(2); built; SELECT kept: ToyQueryResult(2); SELECT",
        ),
    ] {
        let told = used(rt.alloc(), *what);
        says(&rt, told, want)?;
    }
    Ok(())
}
