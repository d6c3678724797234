//! Queries of a text with whole numbers as arguments, over any backend, and what running one comes to.
ghost use Rattle.std.specs.Prelude.{◌≡◌, ◌++◌, ◌∷◌, [], ℕ, IfOk, List};
ghost use Rattle.sqlx_any_values.specs.declared.value.AnyValueKind.{AnyValueKind as Kind};
ghost use Rattle.sqlx_play_client.specs.Bound.{Executes, FindsNumber, IsBound};

use sqlx_any::{Any, AnyArguments, AnyConnection, AnyConnectionBackend, AnyQueryResult};
use sqlx_query::{Query, QueryScalar, query, query_scalar};
use sqlx_text::{Error, OutOfMemory};
use std::alloc::Global;

/// A query of a text, to which nothing is bound.
#[tactic(auto, using(crate::proofs::BoundLemmas::begins_bound))]
pub(crate) fn asks<'q, B: AnyConnectionBackend>(
    alloc: Global,
    text: &'static str,
) -> Result<Query<'q, Any<B>, AnyArguments>, OutOfMemory>
    ensures { IfOk result (λ query. IsBound text.entry.now [] query) }
{
    query::<Any<B>, &'static str>(alloc, text)
}

/// The same with one number more.
#[tactic(auto, using(crate::proofs::BoundLemmas::one_more))]
pub(crate) fn with<'q, B: AnyConnectionBackend>(
    alloc: Global,
    query: Query<'q, Any<B>, AnyArguments>,
    number: i64,
) -> Query<'q, Any<B>, AnyArguments>
    ensures { (text : List ℕ) (values : List Kind) → IsBound text values query.entry → IsBound text (values ++ Kind.BigInt number ∷ []) result }
{
    query.bind(alloc, number)
}

/// Runs it and gives what was written.
#[tactic(auto, using(crate::proofs::BoundLemmas::ran_bound))]
pub(crate) fn executes<'q, B: AnyConnectionBackend>(
    alloc: Global,
    conn: &mut AnyConnection<B>,
    query: Query<'q, Any<B>, AnyArguments>,
) -> Result<AnyQueryResult, Error>
    ensures { (text : List ℕ) (values : List Kind) → IsBound text values query.entry → Executes B.runs conn.old.backend text values result conn.new.backend }
{
    query.execute(alloc, conn)
}

/// A query of a text for numbers, to which nothing is bound.
#[tactic(auto, using(crate::proofs::BoundLemmas::begins_bound))]
pub(crate) fn asks_number<'q, B: AnyConnectionBackend>(
    alloc: Global,
    text: &'static str,
) -> Result<QueryScalar<'q, Any<B>, i64, AnyArguments>, OutOfMemory>
    ensures { IfOk result (λ asked. IsBound text.entry.now [] asked.query) }
{
    query_scalar::<Any<B>, i64, &'static str>(alloc, text)
}

/// The same with one number more.
#[tactic(auto, using(crate::proofs::BoundLemmas::one_more))]
pub(crate) fn number_with<'q, B: AnyConnectionBackend>(
    alloc: Global,
    asked: QueryScalar<'q, Any<B>, i64, AnyArguments>,
    number: i64,
) -> QueryScalar<'q, Any<B>, i64, AnyArguments>
    ensures { (text : List ℕ) (values : List Kind) → IsBound text values asked.entry.query → IsBound text (values ++ Kind.BigInt number ∷ []) result.query }
{
    asked.bind(alloc, number)
}

/// Runs it and gives the number in its first row.
#[tactic(auto, using(crate::proofs::BoundLemmas::ran_bound, crate::proofs::NumberLemmas::reads_row))]
pub(crate) fn finds<'q, B: AnyConnectionBackend>(
    alloc: Global,
    conn: &mut AnyConnection<B>,
    asked: QueryScalar<'q, Any<B>, i64, AnyArguments>,
) -> Result<i64, Error>
    ensures { (text : List ℕ) (values : List Kind) → IsBound text values asked.entry.query → FindsNumber B.runs conn.old.backend text values result conn.new.backend }
{
    asked.fetch_one(alloc, conn)
}
