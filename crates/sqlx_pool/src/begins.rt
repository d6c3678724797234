//! Transactions on connections that a pool lends.

ghost use Rattle.std.specs.Prelude.{◌≡◌, ◌<◌, ◌≤◌, ℕ, None, Some};
ghost use Rattle.sqlx_pool.specs.Begun.{Begins, BeginsLent, BegunOnLent, has_lent, was_lent};
ghost use Rattle.sqlx_pool_parts.specs.Booked.{CountsIf};
ghost use Rattle.sqlx_pool.specs.Refusals.{IsPollRefusal, MayRefuseTry};

use crate::steps::PoolSteps;
use crate::{Clock, PoolConnectionOf, PoolOf};
use sqlx_pool_core::Outside;
use sqlx_text::{Error, Moment, SqlStr};
use sqlx_traits::Database;
use sqlx_tx::Transaction;
use std::alloc::Global;
use std::sync::Wait;

/// Why no transaction was begun. The connection is there where one was lent and the begin on it was refused.
pub struct BeginRefusedOf<P> {
    pub error: Error,
    pub connection: Option<P>,
}

// Begins on a connection that was lent.
fn begin_on<DB: Database, S: PoolSteps<DB::Connection, DB::Options>>(
    alloc: Global,
    conn: PoolConnectionOf<DB::Connection, DB::Options, S>,
    statement: Option<SqlStr>,
) -> Result<
    Transaction<DB, PoolConnectionOf<DB::Connection, DB::Options, S>>,
    (Error, PoolConnectionOf<DB::Connection, DB::Options, S>),
>
    requires flat { DB.Connection.levels conn.raw ≡ 0 }
    ensures begun { BegunOnLent DB.TransactionManager.does DB.Connection.levels DB.Connection.faults (λ lent. lent.raw) statement result }
{
    match Transaction::begin(alloc, conn, statement) {
        Ok(begun) => Ok(begun),
        Err(refused) => Err(refused),
    }
}

// Begins on the first idle connection, by the statement where one is given.
fn try_begin_by<DB: Database, S: PoolSteps<DB::Connection, DB::Options>, R: Wait>(
    pool: &PoolOf<DB::Connection, DB::Options, S>,
    rt: &R,
    alloc: Global,
    now: Moment,
    client: u32,
    tally: &mut S::Tally,
    statement: Option<SqlStr>,
) -> Result<
    Option<Transaction<DB, PoolConnectionOf<DB::Connection, DB::Options, S>>>,
    BeginRefusedOf<PoolConnectionOf<DB::Connection, DB::Options, S>>,
>
where
    DB::Connection: Drop,
    ensures begins { Begins DB.TransactionManager.does DB.Connection.levels DB.Connection.faults (λ lent. lent.raw) MayRefuseTry statement result }
    ensures tally { CountsIf (has_lent result) (S.Tally.counted tally.old) (S.Tally.counted tally.new) }
{
    match pool.try_acquire(rt, alloc, now, client, tally) {
        Ok(Some(conn)) => match begin_on::<DB, S>(alloc, conn, statement) {
            Ok(begun) => Ok(Some(begun)),
            Err((error, conn)) => Err(BeginRefusedOf {
                error,
                connection: Some(conn),
            }),
        },
        Ok(None) => Ok(None),
        Err(error) => Err(BeginRefusedOf {
            error,
            connection: None,
        }),
    }
}

// Waits for a connection and begins on it, by the statement where one is given.
fn begin_by<
    DB: Database,
    S: PoolSteps<DB::Connection, DB::Options>,
    R: Wait,
    K: Clock,
    X: Outside<DB::Connection, DB::Options>,
>(
    pool: &PoolOf<DB::Connection, DB::Options, S>,
    rt: &R,
    alloc: Global,
    clock: &mut K,
    client: u32,
    out: &mut X,
    tally: &mut S::Tally,
    statement: Option<SqlStr>,
) -> Result<
    Transaction<DB, PoolConnectionOf<DB::Connection, DB::Options, S>>,
    BeginRefusedOf<PoolConnectionOf<DB::Connection, DB::Options, S>>,
>
where
    DB::Connection: Drop,
    ensures begins { BeginsLent DB.TransactionManager.does DB.Connection.levels DB.Connection.faults (λ lent. lent.raw) (IsPollRefusal (X.faults out.old) (X.faults out.new)) statement result }
    ensures tally { CountsIf (was_lent result) (S.Tally.counted tally.old) (S.Tally.counted tally.new) }
    ensures counts { (X.faults out.old ≤ X.faults out.new) × (X.refusals out.old ≤ X.refusals out.new) }
{
    match pool.acquire_wait::<R, K, X>(rt, alloc, clock, client, out, tally) {
        Ok(conn) => match begin_on::<DB, S>(alloc, conn, statement) {
            Ok(begun) => Ok(begun),
            Err((error, conn)) => Err(BeginRefusedOf {
                error,
                connection: Some(conn),
            }),
        },
        Err(error) => Err(BeginRefusedOf {
            error,
            connection: None,
        }),
    }
}

/// Transactions on connections that the pool of a database lends. In sqlx: calls of `Pool`.
pub trait PoolBegin<DB: Database, S: PoolSteps<DB::Connection, DB::Options>> {
    /// Waits for a connection, as `acquire_wait`, and begins a transaction on it. Where the begin is refused, the
    /// connection comes back.
    fn begin<R: Wait, K: Clock, X: Outside<DB::Connection, DB::Options>>(
        &self,
        rt: &R,
        alloc: Global,
        clock: &mut K,
        client: u32,
        out: &mut X,
        tally: &mut S::Tally,
    ) -> Result<
        Transaction<DB, PoolConnectionOf<DB::Connection, DB::Options, S>>,
        BeginRefusedOf<PoolConnectionOf<DB::Connection, DB::Options, S>>,
    >
        ensures begins { BeginsLent DB.TransactionManager.does DB.Connection.levels DB.Connection.faults (λ lent. lent.raw) (IsPollRefusal (X.faults out.old) (X.faults out.new)) None result }
        ensures tally { CountsIf (was_lent result) (S.Tally.counted tally.old) (S.Tally.counted tally.new) }
        ensures counts { (X.faults out.old ≤ X.faults out.new) × (X.refusals out.old ≤ X.refusals out.new) };

    /// As `begin`, by a statement of your own.
    fn begin_with<R: Wait, K: Clock, X: Outside<DB::Connection, DB::Options>>(
        &self,
        rt: &R,
        alloc: Global,
        clock: &mut K,
        client: u32,
        out: &mut X,
        tally: &mut S::Tally,
        statement: SqlStr,
    ) -> Result<
        Transaction<DB, PoolConnectionOf<DB::Connection, DB::Options, S>>,
        BeginRefusedOf<PoolConnectionOf<DB::Connection, DB::Options, S>>,
    >
        ensures begins { BeginsLent DB.TransactionManager.does DB.Connection.levels DB.Connection.faults (λ lent. lent.raw) (IsPollRefusal (X.faults out.old) (X.faults out.new)) (Some statement) result }
        ensures tally { CountsIf (was_lent result) (S.Tally.counted tally.old) (S.Tally.counted tally.new) }
        ensures counts { (X.faults out.old ≤ X.faults out.new) × (X.refusals out.old ≤ X.refusals out.new) };

    /// Begins a transaction on the first idle connection, past the line and without a test, where `try_acquire` lends
    /// one; None where it doesn't.
    fn try_begin<R: Wait>(
        &self,
        rt: &R,
        alloc: Global,
        now: Moment,
        client: u32,
        tally: &mut S::Tally,
    ) -> Result<
        Option<Transaction<DB, PoolConnectionOf<DB::Connection, DB::Options, S>>>,
        BeginRefusedOf<PoolConnectionOf<DB::Connection, DB::Options, S>>,
    >
        ensures begins { Begins DB.TransactionManager.does DB.Connection.levels DB.Connection.faults (λ lent. lent.raw) MayRefuseTry None result }
        ensures tally { CountsIf (has_lent result) (S.Tally.counted tally.old) (S.Tally.counted tally.new) };

    /// As `try_begin`, by a statement of your own.
    fn try_begin_with<R: Wait>(
        &self,
        rt: &R,
        alloc: Global,
        now: Moment,
        client: u32,
        tally: &mut S::Tally,
        statement: SqlStr,
    ) -> Result<
        Option<Transaction<DB, PoolConnectionOf<DB::Connection, DB::Options, S>>>,
        BeginRefusedOf<PoolConnectionOf<DB::Connection, DB::Options, S>>,
    >
        ensures begins { Begins DB.TransactionManager.does DB.Connection.levels DB.Connection.faults (λ lent. lent.raw) MayRefuseTry (Some statement) result }
        ensures tally { CountsIf (has_lent result) (S.Tally.counted tally.old) (S.Tally.counted tally.new) };
}

impl<DB: Database, S: PoolSteps<DB::Connection, DB::Options>> PoolBegin<DB, S>
    for PoolOf<DB::Connection, DB::Options, S>
where
    DB::Connection: Drop,
{
    fn begin<R: Wait, K: Clock, X: Outside<DB::Connection, DB::Options>>(
        &self,
        rt: &R,
        alloc: Global,
        clock: &mut K,
        client: u32,
        out: &mut X,
        tally: &mut S::Tally,
    ) -> Result<
        Transaction<DB, PoolConnectionOf<DB::Connection, DB::Options, S>>,
        BeginRefusedOf<PoolConnectionOf<DB::Connection, DB::Options, S>>,
    > {
        begin_by::<DB, S, R, K, X>(self, rt, alloc, clock, client, out, tally, None)
    }

    fn begin_with<R: Wait, K: Clock, X: Outside<DB::Connection, DB::Options>>(
        &self,
        rt: &R,
        alloc: Global,
        clock: &mut K,
        client: u32,
        out: &mut X,
        tally: &mut S::Tally,
        statement: SqlStr,
    ) -> Result<
        Transaction<DB, PoolConnectionOf<DB::Connection, DB::Options, S>>,
        BeginRefusedOf<PoolConnectionOf<DB::Connection, DB::Options, S>>,
    > {
        begin_by::<DB, S, R, K, X>(self, rt, alloc, clock, client, out, tally, Some(statement))
    }

    fn try_begin<R: Wait>(
        &self,
        rt: &R,
        alloc: Global,
        now: Moment,
        client: u32,
        tally: &mut S::Tally,
    ) -> Result<
        Option<Transaction<DB, PoolConnectionOf<DB::Connection, DB::Options, S>>>,
        BeginRefusedOf<PoolConnectionOf<DB::Connection, DB::Options, S>>,
    > {
        try_begin_by::<DB, S, R>(self, rt, alloc, now, client, tally, None)
    }

    fn try_begin_with<R: Wait>(
        &self,
        rt: &R,
        alloc: Global,
        now: Moment,
        client: u32,
        tally: &mut S::Tally,
        statement: SqlStr,
    ) -> Result<
        Option<Transaction<DB, PoolConnectionOf<DB::Connection, DB::Options, S>>>,
        BeginRefusedOf<PoolConnectionOf<DB::Connection, DB::Options, S>>,
    > {
        try_begin_by::<DB, S, R>(self, rt, alloc, now, client, tally, Some(statement))
    }
}
