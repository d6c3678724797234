//! Queries of a text.
ghost use Rattle.std.specs.Prelude.{◌≡◌, IfOk, None, Ok};
ghost use Rattle.sqlx_query_drafts.specs.Query.{BeginsEmpty, fresh_query};

use crate::{Query, QueryAs, QueryScalar, RawSql, ReadQuery};
use sqlx_text::{Fault, OutOfMemory, SqlSafeStr};
use sqlx_traits::{Arguments, Database, Either, IntoArguments};
use std::alloc::Global;

/// A query of a text, to which arguments are still to be bound.
pub fn query<'q, DB: Database, S: SqlSafeStr>(
    alloc: Global,
    sql: S,
) -> Result<Query<'q, DB, DB::Arguments>, OutOfMemory>
    ensures { IfOk result (λ query. BeginsEmpty (λ args. DB.ArgumentBuffer.count (DB.Arguments.buffered args)) (S.text sql) None query) }
{
    match sql.into_sql_str(alloc) {
        Ok(sql) => Ok(Query::new(Either::Left(sql), Ok(DB::Arguments::new(alloc)))),
        Err(want) => Err(want),
    }
}

/// A query of a text with these arguments.
pub fn query_with<'q, DB: Database, S: SqlSafeStr, A: IntoArguments<DB> + Drop>(
    alloc: Global,
    sql: S,
    arguments: A,
) -> Result<Query<'q, DB, A>, OutOfMemory>
    ensures { IfOk result (λ query. query ≡ fresh_query (S.text sql) None (Ok arguments)) }
{
    query_with_result(alloc, sql, Ok(arguments))
}

/// A query of a text with these arguments, or with why they can't be had, which is told when the query runs, as `Encode`.
pub fn query_with_result<'q, DB: Database, S: SqlSafeStr, A: IntoArguments<DB> + Drop>(
    alloc: Global,
    sql: S,
    arguments: Result<A, Fault>,
) -> Result<Query<'q, DB, A>, OutOfMemory>
    ensures { IfOk result (λ query. query ≡ fresh_query (S.text sql) None arguments) }
{
    match sql.into_sql_str(alloc) {
        Ok(sql) => Ok(Query::new(Either::Left(sql), arguments)),
        Err(failed) => {
            drop(arguments);
            Err(failed)
        }
    }
}

/// A query of a text for values that are made of its rows, to which arguments are still to be bound.
pub fn query_as<'q, DB: Database, O, S: SqlSafeStr>(
    alloc: Global,
    sql: S,
) -> Result<QueryAs<'q, DB, O, DB::Arguments>, OutOfMemory>
    ensures { IfOk result (λ made. BeginsEmpty (λ args. DB.ArgumentBuffer.count (DB.Arguments.buffered args)) (S.text sql) None made.query) }
{
    match query::<DB, S>(alloc, sql) {
        Ok(query) => Ok(ReadQuery::new(query)),
        Err(want) => Err(want),
    }
}

/// A query of a text for values that are made of its rows, with these arguments.
pub fn query_as_with<'q, DB: Database, O, S: SqlSafeStr, A: IntoArguments<DB> + Drop>(
    alloc: Global,
    sql: S,
    arguments: A,
) -> Result<QueryAs<'q, DB, O, A>, OutOfMemory>
    ensures { IfOk result (λ made. made.query ≡ fresh_query (S.text sql) None (Ok arguments)) }
{
    match query_with(alloc, sql, arguments) {
        Ok(query) => Ok(ReadQuery::new(query)),
        Err(want) => Err(want),
    }
}

/// A query of a text for values that are made of its rows, with these arguments, or with why they can't be had.
pub fn query_as_with_result<'q, DB: Database, O, S: SqlSafeStr, A: IntoArguments<DB> + Drop>(
    alloc: Global,
    sql: S,
    arguments: Result<A, Fault>,
) -> Result<QueryAs<'q, DB, O, A>, OutOfMemory>
    ensures { IfOk result (λ made. made.query ≡ fresh_query (S.text sql) None arguments) }
{
    match query_with_result(alloc, sql, arguments) {
        Ok(query) => Ok(ReadQuery::new(query)),
        Err(want) => Err(want),
    }
}

/// A query of a text for the first column of its rows, to which arguments are still to be bound.
pub fn query_scalar<'q, DB: Database, O, S: SqlSafeStr>(
    alloc: Global,
    sql: S,
) -> Result<QueryScalar<'q, DB, O, DB::Arguments>, OutOfMemory>
    ensures { IfOk result (λ made. BeginsEmpty (λ args. DB.ArgumentBuffer.count (DB.Arguments.buffered args)) (S.text sql) None made.query) }
{
    match query::<DB, S>(alloc, sql) {
        Ok(query) => Ok(ReadQuery::new(query)),
        Err(want) => Err(want),
    }
}

/// A query of a text for the first column of its rows, with these arguments.
pub fn query_scalar_with<'q, DB: Database, O, S: SqlSafeStr, A: IntoArguments<DB> + Drop>(
    alloc: Global,
    sql: S,
    arguments: A,
) -> Result<QueryScalar<'q, DB, O, A>, OutOfMemory>
    ensures { IfOk result (λ made. made.query ≡ fresh_query (S.text sql) None (Ok arguments)) }
{
    match query_with(alloc, sql, arguments) {
        Ok(query) => Ok(ReadQuery::new(query)),
        Err(want) => Err(want),
    }
}

/// A query of a text for the first column of its rows, with these arguments, or with why they can't be had.
pub fn query_scalar_with_result<'q, DB: Database, O, S: SqlSafeStr, A: IntoArguments<DB> + Drop>(
    alloc: Global,
    sql: S,
    arguments: Result<A, Fault>,
) -> Result<QueryScalar<'q, DB, O, A>, OutOfMemory>
    ensures { IfOk result (λ made. made.query ≡ fresh_query (S.text sql) None arguments) }
{
    match query_with_result(alloc, sql, arguments) {
        Ok(query) => Ok(ReadQuery::new(query)),
        Err(want) => Err(want),
    }
}

/// Statements that are run as they stand.
pub fn raw_sql<S: SqlSafeStr>(alloc: Global, sql: S) -> Result<RawSql, OutOfMemory>
    ensures { IfOk result (λ raw. raw ≡ S.text sql) }
{
    match sql.into_sql_str(alloc) {
        Ok(sql) => Ok(RawSql::new(sql)),
        Err(want) => Err(want),
    }
}
